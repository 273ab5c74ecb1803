//! What a refusal is about: names, kinds, blocks and places.

use vcm_expr::{BinaryOp, Prefix};
use vcm_items::Name;
use vcm_num::Kind;

/// What a name names.
#[derive(Clone, Copy, PartialEq, Eq)]
pub enum Sort {
    Variable,
    Feature,
    Frame,
    Label,
    Macro,
}

/// A name that is near a missing one, and the line that declares it.
#[derive(Drop)]
pub struct Near {
    pub name: Name,
    pub line: u32,
}

/// A block that is open.
#[derive(Clone, Copy, PartialEq, Eq)]
pub enum Block {
    /// The first block of an `IF`.
    If,
    /// The second one.
    Else,
    /// That of a `DO`.
    Do,
    /// That of a `MEAS`.
    Meas,
    /// A `SELECT` that has had no `DFTCAS`, and none of whose blocks is open.
    Select,
    /// A `SELECT` behind the block of its `DFTCAS`.
    Last,
    /// A block of a `SELECT` that a `CASE` opens.
    Case,
    /// The block that a `DFTCAS` opens.
    Default,
    /// A `MACRO`.
    Macro,
}

/// A statement by its major word.
#[derive(Clone, Copy)]
pub enum Word {
    Dmismn,
    Units,
    Ignored,
    Decl,
    Assign,
    Goto,
    Gohome,
    Text,
    If,
    Else,
    Endif,
    Do,
    Enddo,
    Label,
    Jumpto,
    Feat,
    Meas,
    Ptmeas,
    Endmes,
    Snset,
    Trans,
    Rotate,
    Recall,
    Obtain,
    Output,
    Select,
    Case,
    Endcas,
    Dftcas,
    Endsel,
    Macro,
    Endmac,
    Call,
    Endfil,
}

/// What is wrong with an argument.
#[derive(Clone, Copy)]
pub enum Misfit {
    /// It is no name.
    NoName,
    /// It is no variable, and the macro assigns to it.
    NoVariable,
    /// It is no expression.
    NoValue,
}

/// What a refusal is about. Lines count from 1.
#[derive(Drop)]
pub enum About {
    /// Nothing more is known.
    Nothing,
    /// No such name stands where it may be used, and one that is near, if there is one.
    Missing(Sort, Name, Option<Near>),
    /// The name is declared in this line already.
    Declared(Sort, Name, u32),
    /// An operator between values of these kinds.
    Operator(BinaryOp, Kind, Kind),
    /// A sign in front of a value of this kind.
    Sign(Prefix, Kind),
    /// A value of the first kind where one of the second is wanted.
    Place(Kind, Kind),
    /// The block that is opened in this line has no end.
    Unended(Block, u32),
    /// A word that closes, or goes on with, no such block.
    Blockless(Word, Block),
    /// A word in a block that is opened in this line, where it may not stand.
    Inside(Word, Block, u32),
    /// The block that is opened in this line has this word already.
    Has(Block, u32, Word),
    /// More blocks are open than may be.
    Deep,
    /// The label in this line stands in the block that is opened in that line.
    Inward(Name, u32, u32),
    /// The `MEAS` in this line has so many `PTMEAS`.
    Touches(u32, usize),
    /// A `PTMEAS` outside of `MEAS`.
    Outside,
    /// A macro in this line has so many parameters, and so many arguments are given.
    Count(Name, u32, usize, usize),
    /// The argument with this number, from 1, for a macro in this line.
    Argument(usize, Name, u32, Misfit),
    /// This word is missing above.
    NothingAbove(Word),
    /// This word stands above already, in this line.
    Above(Word, u32),
    /// There is no `ENDFIL`.
    Endless,
}
