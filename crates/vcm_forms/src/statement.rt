//! What a statement is.

ghost use Rattle.std.specs.Prelude.{◌≡◌};
ghost use Rattle.vcm_forms.specs.Statements.{notice_word};

use crate::operator_text::OperatorText;
use vcm_expr::Expr;
use vcm_items::{Name, VariableName};
use vcm_num::{Axis, Items, Kind};
use vcm_spec::{FeatureWord, FrameAxis, Quarters, Setting, Source};

/// A statement that has no effect, by its major word.
#[derive(Clone, Copy, PartialEq, Eq)]
pub enum Notice {
    Mode,
    Fedrat,
    Aclrat,
    Finpos,
    Prcomp,
    Decpl,
    Filnam,
    Disply,
    Wkplan,
    Snslct,
    Snsdef,
    Vform,
}

impl Notice {
    /// The major word, in upper case.
    pub fn word(self) -> &'static [u8]
        ensures { result.now ≡ notice_word self }
    {
        match self {
            Notice::Mode => b"MODE",
            Notice::Fedrat => b"FEDRAT",
            Notice::Aclrat => b"ACLRAT",
            Notice::Finpos => b"FINPOS",
            Notice::Prcomp => b"PRCOMP",
            Notice::Decpl => b"DECPL",
            Notice::Filnam => b"FILNAM",
            Notice::Disply => b"DISPLY",
            Notice::Wkplan => b"WKPLAN",
            Notice::Snslct => b"SNSLCT",
            Notice::Snsdef => b"SNSDEF",
            Notice::Vform => b"VFORM",
        }
    }
}

/// A place by its three coordinates, each an expression.
#[derive(Drop)]
pub struct Coordinates {
    pub x: Expr,
    pub y: Expr,
    pub z: Expr,
}

/// A variable that is assigned: its name, and the number of the macro expansion that it stands in, 0 as it is read.
#[derive(Drop)]
pub struct Target {
    pub name: Name,
    pub expansion: u32,
}

/// A parameter of a macro: a quoted one stands for a name, any other for an expression.
#[derive(Drop)]
pub struct Parameter {
    pub name: Name,
    pub quoted: bool,
}

/// An argument of a call, in each way in which it can be read: as a name, as an expression.
#[derive(Drop)]
pub struct Argument {
    pub name: Option<Name>,
    pub value: Option<Expr>,
}

/// How often a block is repeated, from the words of `DO`.
#[derive(Drop)]
pub struct Rounds {
    pub variable: Target,
    pub initial: Expr,
    pub limit: Expr,
    /// 1 where it is left out.
    pub increment: Option<Expr>,
}

/// How far the origin of a frame is shifted along one of its axes, from the words of `TRANS`.
#[derive(Drop)]
pub struct Offset {
    pub axis: FrameAxis,
    pub length: Expr,
}

/// What a statement says.
#[derive(Drop)]
pub enum Form {
    /// `DMISMN`, with which a program begins.
    Opening,
    /// `UNITS`: millimetres and decimal degrees.
    Measures,
    /// A statement without effect.
    Ignored(Notice),
    /// `DECL`: the kind of variables, and their names.
    Declaration(Kind, Items<VariableName>),
    /// `ASSIGN`: a variable, and the value that it gets.
    Assignment(Target, Expr),
    /// `GOTO`: the place to go to.
    Move(Coordinates),
    /// `GOHOME`.
    Home,
    /// `TEXT`: what it shows.
    Say(OperatorText),
    /// `IF`: the test.
    Test(Expr),
    /// `ELSE`.
    Otherwise,
    /// `ENDIF`.
    TestEnd,
    /// `DO`.
    Repeat(Rounds),
    /// `ENDDO`.
    RepeatEnd,
    /// A jump label.
    Mark(Name),
    /// `JUMPTO`: the name of a jump label.
    Leap(Name),
    /// `FEAT`: a feature's name, its place, and the direction out of the material there.
    Feature(Name, Coordinates, Axis),
    /// `MEAS`: the name of the feature that is measured.
    Measure(Name),
    /// `PTMEAS`: the place to touch, and the direction out of the material if it is given.
    Touch(Coordinates, Option<Axis>),
    /// `ENDMES`.
    MeasureEnd,
    /// `SNSET`: a setting of the probe, and its length.
    Configure(Setting, Expr),
    /// `TRANS`: a frame's name, and its shifts in the order in which they are written, at most one along each axis.
    Shift(Name, Items<Offset>),
    /// `ROTATE`: a frame's name, and its turn.
    Rotation(Name, FrameAxis, Quarters),
    /// `RECALL`: a frame's name.
    Restore(Name),
    /// `OBTAIN`: a variable, and the word of a feature that it gets.
    Query(Target, Source, Name, FeatureWord),
    /// `OUTPUT`: the feature that is told.
    Report(Source, Name),
    /// `SELECT`: its value.
    Choose(Expr),
    /// `CASE`: the value of its block.
    Case(i64),
    /// `ENDCAS`.
    CaseEnd,
    /// `DFTCAS`.
    Default,
    /// `ENDSEL`.
    ChooseEnd,
    /// `MACRO`: a macro's name, and its parameters.
    Macro(Name, Items<Parameter>),
    /// `ENDMAC`.
    MacroEnd,
    /// `CALL`: a macro's name, and the arguments.
    Call(Name, Items<Argument>),
    /// `ENDFIL`, with which a program ends.
    Ending,
}

impl Form {
    ghost use Rattle.vcm_forms.specs.Statements.{is_counted};

    /// Whether the statement has a number: it is one step of the machine.
    pub fn is_counted(&self) -> bool
        ensures { result ≡ is_counted self.now }
    {
        match self {
            Form::Opening | Form::Measures | Form::Ignored(_) | Form::Declaration(_, _) => false,
            Form::Macro(_, _) | Form::MacroEnd | Form::Call(_, _) => false,
            _ => true,
        }
    }
}

/// A statement, and the line that it begins on, the first being 1.
#[derive(Drop)]
pub struct Statement {
    pub line: u32,
    pub form: Form,
}
