//! The writing of whole listings.

ghost use Rattle.std.specs.Prelude.{◌≡◌, IfOk};
ghost use Rattle.vcm_num.specs.Written.{Wrote};
ghost use Rattle.vcm_words.specs.declared.row.Row.TheVariants.{Variable, Feature, Frame, Numbered};
ghost use Rattle.vcm_words.specs.Rows.{listing};
ghost use Rattle.vcm_print.specs.inner.Written.{heading, lines};

use crate::names::{write_name, write_variable};
use crate::statement::write_statement;
use std::alloc::Global;
use std::io::Write;
use vcm_code::Version;
use vcm_loader::Loaded;
use vcm_num::{NoMemory, WriteFault, write_all};

// The first line of a listing of this version, with its end.
fn heading(version: Version) -> &'static [u8]
    ensures { result.now ≡ heading version }
{
    match version {
        Version::One => b"VCM-LISTING 1\n",
        Version::Two => b"VCM-LISTING 2\n",
    }
}

// Writes the first line.
fn write_heading<W: Write>(loaded: &Loaded<'_>, writer: &mut W) -> Result<(), WriteFault>
    ensures { Wrote (W.contents writer.old) (W.contents writer.new) (heading loaded.now.version) result }
{
    write_all(writer, heading(loaded.version()))
}

// Writes the lines of the variables.
fn write_variables<W: Write>(loaded: &Loaded<'_>, writer: &mut W) -> Result<(), WriteFault>
    ensures { Wrote (W.contents writer.old) (W.contents writer.new) (lines Variable 0 loaded.now.tables.variables) result }
{
    for n in 0..loaded.variable_count() {
        let variable = loaded.variable(n);
        let name = variable.name();
        write_variable(
            n,
            variable.kind(),
            name.as_bytes(),
            variable.expansion(),
            writer,
        )?;
    }
    Ok(())
}

// Writes the lines of the features.
fn write_features<W: Write>(loaded: &Loaded<'_>, writer: &mut W) -> Result<(), WriteFault>
    ensures { Wrote (W.contents writer.old) (W.contents writer.new) (lines Feature 0 loaded.now.tables.features) result }
{
    for n in 0..loaded.feature_count() {
        write_name(b"FEATURE ", n, loaded.feature(n).as_bytes(), writer)?;
    }
    Ok(())
}

// Writes the lines of the frames.
fn write_frames<W: Write>(loaded: &Loaded<'_>, writer: &mut W) -> Result<(), WriteFault>
    ensures { Wrote (W.contents writer.old) (W.contents writer.new) (lines Frame 0 loaded.now.tables.frames) result }
{
    for n in 0..loaded.frame_count() {
        write_name(b"FRAME ", n, loaded.frame(n).as_bytes(), writer)?;
    }
    Ok(())
}

// Writes the lines of the statements.
fn write_statements<W: Write>(loaded: &Loaded<'_>, writer: &mut W) -> Result<(), WriteFault>
    ensures { Wrote (W.contents writer.old) (W.contents writer.new) (lines Numbered 0 loaded.now.statements) result }
{
    for n in 0..loaded.statement_count() {
        write_statement(loaded, n, writer)?;
    }
    Ok(())
}

// Writes the whole listing.
fn write_listing<W: Write>(loaded: &Loaded<'_>, writer: &mut W) -> Result<(), WriteFault>
    ensures { Wrote (W.contents writer.old) (W.contents writer.new) (listing loaded.now) result }
{
    write_heading(loaded, writer)?;
    write_variables(loaded, writer)?;
    write_features(loaded, writer)?;
    write_frames(loaded, writer)?;
    write_statements(loaded, writer)
}

/// The listing of a valid image: its version, the lines of its variables, features and frames, and those of its statements, each with its end.
///
/// # Errors
///
/// Want of memory.
pub fn print(alloc: Global, loaded: &Loaded<'_>) -> Result<Vec<u8>, NoMemory>
    ensures { IfOk result (λ bytes. bytes.items ≡ listing loaded.now) }
{
    let mut bytes = Vec::new(alloc);
    match write_listing(loaded, &mut bytes) {
        Ok(()) => Ok(bytes),
        Err(_) => Err(NoMemory),
    }
}
