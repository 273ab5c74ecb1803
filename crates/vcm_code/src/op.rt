//! The statements of a code.

ghost use Rattle.std.specs.Prelude.{◌≡◌, ℕ, List};
ghost use Rattle.vcm_spec.specs.declared.expression.Item.{Item as Postfix};
ghost use Rattle.vcm_code.specs.declared.branch.Branch.{Branch as Way};
ghost use Rattle.vcm_spec.specs.Simple.{with_forms};
ghost use Rattle.vcm_code.specs.declared.op.Op.TheVariants.{Plain};
ghost use Rattle.vcm_code.specs.Copies.{listed};
ghost use Rattle.vcm_code.specs.Words.{word_of};

use crate::branch::Branch;
use crate::word::Word;
use vcm_num::Items;
use vcm_spec::{Item, Simple};

/// What a statement does, with expressions of the form `E` (postfix items), texts of the form `T` (bytes) and branches of the form `B`: owned in
/// a `Code`, or read in place. Variables and features go by their indexes, and targets are numbers of statements.
#[derive(Drop)]
pub enum Op<E, T, B> {
    /// A simple statement.
    Plain(Simple<E, T>),
    /// `IF`: its test, and where a false one goes.
    If(E, u32),
    /// `ELSE`, and where it goes: to the end of its choice.
    Else(u32),
    /// `ENDIF`.
    EndIf,
    /// `DO`: its variable, its pair (0 to 31), which keeps its limit and its increment, the initial value, the limit, the increment, and its exit.
    Do(u16, u8, E, E, E, u32),
    /// `ENDDO`: its variable, its pair, and where the body begins.
    EndDo(u16, u8, u32),
    /// A jump label.
    Label,
    /// `JUMPTO`, and where it goes.
    JumpTo(u32),
    /// `MEAS`: its feature.
    Meas(u16),
    /// `ENDMES`.
    EndMes,
    /// `SELECT`: its value, its branches, and where it goes if none of them has the value.
    Select(E, B, u32),
    /// `CASE`.
    Case,
    /// `ENDCAS`, and where it goes: behind its `ENDSEL`.
    EndCas(u32),
    /// `DFTCAS`.
    DftCas,
    /// `ENDSEL`.
    EndSel,
    /// `ENDFIL`.
    EndFil,
}

// The word of a simple statement.
fn simple_word<E, T>(what: &Simple<E, T>) -> Word
    ensures { (items : E → List Postfix) (bytes : T → List ℕ) → result ≡ word_of (Plain (with_forms items bytes what.now)) }
{
    match what {
        Simple::Goto(_, _, _) => Word::Goto,
        Simple::GoHome => Word::GoHome,
        Simple::Assign(_, _) => Word::Assign,
        Simple::Feat(_, _, _, _, _) => Word::Feat,
        Simple::PtMeas(_, _, _, _, _) => Word::PtMeas,
        Simple::SnSet(_, _) => Word::SnSet,
        Simple::Trans(_, _, _, _) => Word::Trans,
        Simple::Rotate(_, _, _) => Word::Rotate,
        Simple::Recall(_) => Word::Recall,
        Simple::Obtain(_, _, _, _) => Word::Obtain,
        Simple::Output(_, _) => Word::Output,
        Simple::Text(_) => Word::Text,
    }
}

impl<E, T, B> Op<E, T, B> {
    /// The word that the statement goes by, however its expressions, texts and branches are kept.
    pub fn word(&self) -> Word
        ensures { (items : E → List Postfix) (bytes : T → List ℕ) (branches : B → List Way) → result ≡ word_of (listed items bytes branches self.now) }
    {
        match self {
            Op::Plain(what) => simple_word(what),
            Op::If(_, _) => Word::If,
            Op::Else(_) => Word::Else,
            Op::EndIf => Word::EndIf,
            Op::Do(_, _, _, _, _, _) => Word::Do,
            Op::EndDo(_, _, _) => Word::EndDo,
            Op::Label => Word::Label,
            Op::JumpTo(_) => Word::JumpTo,
            Op::Meas(_) => Word::Meas,
            Op::EndMes => Word::EndMes,
            Op::Select(_, _, _) => Word::Select,
            Op::Case => Word::Case,
            Op::EndCas(_) => Word::EndCas,
            Op::DftCas => Word::DftCas,
            Op::EndSel => Word::EndSel,
            Op::EndFil => Word::EndFil,
        }
    }
}

/// A statement with the source line that it begins on, the first being 1.
#[derive(Drop)]
pub struct CodeStatement<E, T, B> {
    pub line: u32,
    pub op: Op<E, T, B>,
}

/// What a simple statement does, with postfix items and a text of its own.
pub type OwnedSimple = Simple<Items<Item>, Items<u8>>;

/// What a statement does, with postfix items, texts and branches of its own.
pub type OwnedOp = Op<Items<Item>, Items<u8>, Items<Branch>>;

/// A statement with postfix items, texts and branches of its own.
pub type OwnedStatement = CodeStatement<Items<Item>, Items<u8>, Items<Branch>>;
