//! Events that tell what was printed.

ghost use Rattle.std.specs.Prelude.{◌≡◌, IfOk};
ghost use Rattle.vcm_report.specs.Output.{output_lines};
ghost use Rattle.vcm_dap.specs.Talking.{next_seq, Told};
ghost use Rattle.vcm_dap.specs.inner.Growing.{Grown};
ghost use Rattle.vcm_dap.specs.Telling.{lines_event, SaysSome, TellsText, ToldLines};

use crate::fault::DapFault;
use crate::settings::Settings;
use crate::talk::Talk;
use std::alloc::Global;
use std::io::Write;
use vcm_report::Line;
use vcm_wire::Message;

/// The most output lines of a message.
const MOST_LINES: usize = 1000;

// The last part of a path.
fn file_name(path: &str) -> &str {
    match path.rsplit_once("/") {
        Some((_, name)) => name,
        None => path,
    }
}

/// Puts a place of the program's text, if there is one to show.
pub(crate) fn put_place<W: Write>(
    talk: &Talk<W>,
    settings: &Settings<'_>,
    line: u32,
    message: &mut Message,
) -> Result<(), DapFault>
    ensures { IfOk result (λ u. Grown message.old message.new) }
{
    let Some(path) = settings.source else {
        return Ok(());
    };
    message.begin_member("source")?;
    message.text("name", file_name(path))?;
    message.text("path", path)?;
    message.end()?;
    message.number("line", talk.line_out(line))?;
    Ok(())
}

/// Tells a text that belongs to a source line.
pub(crate) fn tell_placed<W: Write>(
    talk: &mut Talk<W>,
    settings: &Settings<'_>,
    category: &str,
    text: &[u8],
    line: u32,
) -> Result<(), DapFault>
    ensures told { IfOk result (λ u. TellsText talk.old talk.new category.now text.now) }
    ensures says { IfOk result (λ u. SaysSome talk.old talk.new) }
{
    let mut message = talk.output(category, text)?;
    let put = put_place(talk, settings, line, &mut message);
    talk.send_put(message, put)
}

// The text of output lines, each with its line feed.
fn text_of(alloc: Global, lines: &[Line]) -> Result<Vec<u8>, DapFault>
    ensures { IfOk result (λ text. text.items ≡ output_lines lines.now) }
{
    let mut text = Vec::new(alloc);
    for line in lines {
        text.extend_from_slice(line.as_bytes())?;
        text.extend_from_slice(b"\n")?;
    }
    Ok(text)
}

// Tells output lines in one message.
fn tell_few<W: Write>(talk: &mut Talk<W>, lines: &[Line]) -> Result<(), DapFault>
    ensures { Told talk.old talk.new (lines_event (next_seq talk.old.seq) lines.now) result }
{
    match text_of(talk.alloc(), lines) {
        Ok(text) => talk.tell_text("stdout", &text),
        Err(_) => talk.pass_over(),
    }
}

/// Tells output lines, at most a thousand in a message.
pub(crate) fn tell_lines<W: Write>(talk: &mut Talk<W>, lines: &[Line]) -> Result<(), DapFault>
    ensures { ToldLines talk.old talk.new lines.now result }
{
    let mut rest = lines;
    while !rest.is_empty() {
        let (few, behind) = rest.split_at(rest.len().min(MOST_LINES));
        tell_few(talk, few)?;
        rest = behind;
    }
    Ok(())
}
