//! Reads the statements that a program begins with.

ghost use Rattle.vcm_expr.specs.Parsing.{ReadAs};
ghost use Rattle.vcm_syntax.specs.Forms.{dmismn_of, temperature_of, units_of};

use crate::heads::Prefix;
use crate::places::{behind, end, quoted, single, unused, word_at};
use vcm_forms::Form;
use vcm_lines::{FaultCode, Phrase, SourceFault};

/// The first statement: the title of a program.
pub(crate) fn dmismn(line: u32, fields: &[Phrase<'_>]) -> Result<Form, SourceFault>
    ensures { ReadAs line (λ f. f) result (dmismn_of Prefix.Bare fields.now) }
{
    quoted(line, fields, 0)?;
    unused(line, behind(fields, 1))?;
    Ok(Form::Opening)
}

/// The word of a temperature, if a field is left.
fn temperature(line: u32, fields: &[Phrase<'_>]) -> Result<(), SourceFault>
    ensures { ReadAs line (λ u. u) result (temperature_of fields.now) }
{
    match fields {
        [] => Ok(()),
        [words, rest @ ..] => {
            single(line, words)?;
            end(line, rest)
        }
    }
}

/// The units of a program.
pub(crate) fn units(line: u32, fields: &[Phrase<'_>]) -> Result<Form, SourceFault>
    ensures { ReadAs line (λ f. f) result (units_of Prefix.Bare fields.now) }
{
    word_at(line, fields, 0, b"MM", FaultCode::Unsupported)?;
    word_at(line, fields, 1, b"ANGDEC", FaultCode::Unsupported)?;
    temperature(line, behind(fields, 2))?;
    Ok(Form::Measures)
}
