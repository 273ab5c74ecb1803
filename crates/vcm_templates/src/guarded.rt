//! Statements that a text is put as, each perhaps with a remark.

use vcm_macro::Placed;
use vcm_remarks::Remark;

/// A statement that a text is put as, in its expansion, and what is said of it where it is carried out.
#[derive(Drop)]
pub struct Guarded {
    pub placed: Placed,
    pub remark: Option<Remark>,
}
