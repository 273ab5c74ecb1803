//! The reading of images.

ghost use Rattle.std.specs.Prelude.{◌≡◌, Ok, IfOk};
ghost use Rattle.vcm_code.specs.declared.code.Code.{Code as CodeOf};
ghost use Rattle.vcm_fields.specs.Readers.{GivesOrNoMemory};
ghost use Rattle.vcm_image.specs.Whole.{FitsImage, spelling, code_at};

use crate::copying::statements;
use crate::opening::open;
use std::alloc::Global;
use vcm_code::Code;
use vcm_fields::ImageFault;

/// The code whose one spelling the bytes are.
///
/// # Errors
///
/// The first refusal from the front: Short where the bytes of a field are missing, BadMagic, BadVersion or BadField where a field is out of its
/// range, Trailing where bytes are left over. Want of memory.
pub fn read(alloc: Global, bytes: &[u8]) -> Result<Code, ImageFault>
    // What is read is spelled so.
    ensures found { IfOk result (λ c. FitsImage c × (bytes.now ≡ spelling c)) }
    // What is spelled so is read, unless memory runs out.
    ensures only { (c : CodeOf) → FitsImage c → bytes.now ≡ spelling c → GivesOrNoMemory (λ s. s) result (Ok c) }
    // Which refusal it is.
    ensures exact { GivesOrNoMemory (λ c. c) result (code_at bytes.now) }
{
    let image = open(alloc, bytes)?;
    let version = image.version();
    let tables = image.tables(alloc)?;
    let statements = statements(alloc, &image)?;
    Ok(Code {
        version,
        tables,
        statements,
    })
}
