//! The variables of an image.

ghost use Rattle.std.specs.Prelude.{◌≡◌};
ghost use Rattle.vcm_fields.specs.Readers.{Gives, entry_at};

use crate::fault::ImageFault;
use crate::fields::long;
use crate::slices::TextSlice;
use crate::tags::kind;
use crate::texts::variable_name;
use std::marker::Model;
use vcm_num::Kind;

/// A variable whose name is a slice of the image. Contracts see it as a variable of the definitions.
#[derive(Drop)]
pub struct BorrowedVariable<'a> {
    kind: Kind,
    expansion: u32,
    name: TextSlice<'a>,
}

impl<'a> Model for BorrowedVariable<'a> {
    ghost use Rattle.vcm_spec.specs.Setup.{Variable};

    ghost Value = { Variable };

    ghost view = { λ v. record { name = v.name; kind = v.kind; expansion = v.expansion } };
}

impl<'a> BorrowedVariable<'a> {
    /// Its kind.
    pub fn kind(&self) -> Kind
        ensures { result ≡ self.now.kind }
    {
        self.kind
    }

    /// The number of the macro expansion that it belongs to, 0 outside macros.
    pub fn expansion(&self) -> u32
        ensures { result ≡ self.now.expansion }
    {
        self.expansion
    }

    /// Its name, which lives as long as the image.
    pub fn name(&self) -> TextSlice<'a>
        ensures { result ≡ self.now.name }
    {
        self.name.again()
    }
}

/// A variable, and the bytes behind it.
///
/// # Errors
///
/// Short; BadField where a byte is no kind, or the name is none of a variable.
#[tactic(auto, unfolding(crate::specs::Readers::entry_at))]
pub fn variable(bytes: &[u8]) -> Result<(BorrowedVariable<'_>, &[u8]), ImageFault>
    ensures { Gives (λ x. (x.0, x.1.now)) result (entry_at bytes.now) }
{
    let (kind, rest) = kind(bytes)?;
    let (expansion, rest) = long(rest)?;
    let (name, rest) = variable_name(rest)?;
    let variable = BorrowedVariable {
        kind,
        expansion,
        name,
    };
    Ok((variable, rest))
}
