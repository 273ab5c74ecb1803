//! The last field of the row of a point.

ghost use Rattle.std.specs.Prelude.{ℕ, List};
ghost use Rattle.vcm_num.specs.Written.{Wrote};

use std::io::Write;
use vcm_num::WriteFault;

/// What tells in the last field of a row from which CALLs its statement comes.
pub trait TellsCalls<W: Write> {
    /// The field of the statement with a number.
    ghost Calls: { Self → ℕ → List ℕ };

    /// Writes the field of the statement with this number.
    fn write_calls(&self, number: u32, writer: &mut W) -> Result<(), WriteFault>
        ensures { Wrote (W.contents writer.old) (W.contents writer.new) (Calls self.now number) result };
}
