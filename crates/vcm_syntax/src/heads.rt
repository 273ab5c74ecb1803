//! What stands before a statement's fields: its title or variable, and its major word.

use vcm_forms::Notice;
use vcm_items::Name;

/// The letters that the names of features, frames, macros, sensors and forms have before an equals sign.
#[derive(Clone, Copy)]
pub enum Letter {
    F,
    D,
    M,
    S,
    V,
}

/// What stands before a major word.
#[derive(Drop)]
pub enum Prefix {
    Bare,
    /// A variable and an equals sign.
    Assigned(Name),
    /// A word, which may be a letter of titles, a label in parentheses and an equals sign.
    Titled(Option<Letter>, Name),
}

/// What a major word says.
#[derive(Clone, Copy)]
pub enum Major {
    Dmismn,
    Units,
    Decl,
    Assign,
    Goto,
    Gohome,
    Text,
    Endfil,
    If,
    Else,
    Endif,
    Do,
    Enddo,
    Jumpto,
    Feat,
    Meas,
    Ptmeas,
    Endmes,
    Snset,
    Trans,
    Rotate,
    Recall,
    Obtain,
    Output,
    Macro,
    Endmac,
    Call,
    Select,
    Case,
    Endcas,
    Dftcas,
    Endsel,
    Passed(Notice),
}
