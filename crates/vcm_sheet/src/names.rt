//! Names as a sheet writes them.

ghost use Rattle.std.specs.Prelude.{◌≡◌, ◌++◌, map, OnOk, IfOk};
ghost use Rattle.vcm_sheet.specs.Written.{written_byte, written, name_of, gap_before};

use std::alloc::Global;
use vcm_num::NoMemory;

// Appends a byte of a name.
fn put_byte(out: &mut Vec<u8>, byte: u8) -> Result<(), NoMemory>
    ensures { OnOk result (out.new.items ≡ out.old.items ++ written_byte byte) }
{
    if byte == b'<' {
        out.extend_from_slice(b"&lt;")?;
        Ok(())
    } else if byte == b'&' {
        out.extend_from_slice(b"&amp;")?;
        Ok(())
    } else if b' ' <= byte && byte <= b'~' {
        out.push(byte)?;
        Ok(())
    } else {
        out.extend_from_slice(b"?")?;
        Ok(())
    }
}

/// Appends a name: what isn't printable becomes a question mark, and what an SVG reads otherwise is spelled out.
pub(crate) fn put_name(out: &mut Vec<u8>, name: &[u8]) -> Result<(), NoMemory>
    ensures { OnOk result (out.new.items ≡ out.old.items ++ written name.now) }
{
    for byte in name {
        put_byte(out, *byte)?;
    }
    Ok(())
}

/// A name as it is written.
pub(crate) fn written(alloc: Global, name: &[u8]) -> Result<Vec<u8>, NoMemory>
    ensures { IfOk result (λ v. v.items ≡ written name.now) }
{
    let mut out = Vec::new(alloc);
    put_name(&mut out, name)?;
    Ok(out)
}

/// The name of a block, the first one being 1, or nothing where it has none.
pub(crate) fn name_of(names: &[Vec<u8>], block: usize) -> &[u8]
    ensures { result.now ≡ name_of (map (λ n. n.items) names.now) block }
{
    match names.get(block.saturating_sub(1)) {
        Some(name) => name.as_slice(),
        None => &[],
    }
}

/// A blank before a name, if there is one.
pub(crate) fn gap_before<'a>(name: &[u8]) -> &'a [u8]
    ensures { result.now ≡ gap_before name.now }
{
    if name.is_empty() { b"" } else { b" " }
}
