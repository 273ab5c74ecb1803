//! The words of statements, kinds, blocks and operators.

use crate::about::{Block, Sort, Word};
use vcm_expr::{BinaryOp, Prefix, Relation};
use vcm_forms::Form;
use vcm_lines::FaultCode;
use vcm_num::Kind;

/// The major word of a statement.
pub(crate) fn major(form: &Form) -> Word {
    match form {
        Form::Opening => Word::Dmismn,
        Form::Measures => Word::Units,
        Form::Ignored(_) => Word::Ignored,
        Form::Declaration(_, _) => Word::Decl,
        Form::Assignment(_, _) => Word::Assign,
        Form::Move(_) => Word::Goto,
        Form::Home => Word::Gohome,
        Form::Say(_) => Word::Text,
        Form::Mark(_) => Word::Label,
        Form::Leap(_) => Word::Jumpto,
        Form::Feature(_, _, _) => Word::Feat,
        Form::Touch(_, _) => Word::Ptmeas,
        Form::Configure(_, _) => Word::Snset,
        Form::Shift(_, _) => Word::Trans,
        Form::Rotation(_, _, _) => Word::Rotate,
        Form::Restore(_) => Word::Recall,
        Form::Query(_, _, _, _) => Word::Obtain,
        Form::Report(_, _) => Word::Output,
        Form::Macro(_, _) => Word::Macro,
        Form::MacroEnd => Word::Endmac,
        Form::Call(_, _) => Word::Call,
        Form::Ending => Word::Endfil,
        Form::Test(_) => Word::If,
        Form::Otherwise => Word::Else,
        Form::TestEnd => Word::Endif,
        Form::Repeat(_) => Word::Do,
        Form::RepeatEnd => Word::Enddo,
        Form::Measure(_) => Word::Meas,
        Form::MeasureEnd => Word::Endmes,
        Form::Choose(_) => Word::Select,
        Form::Case(_) => Word::Case,
        Form::CaseEnd => Word::Endcas,
        Form::Default => Word::Dftcas,
        Form::ChooseEnd => Word::Endsel,
    }
}

/// A major word as it is told; of a jump label the word `label`.
pub(crate) fn word_text(word: Word) -> &'static str {
    match word {
        Word::Dmismn => "DMISMN",
        Word::Units => "UNITS",
        Word::Ignored => "a line without effect",
        Word::Decl => "DECL",
        Word::Assign => "ASSIGN",
        Word::Goto => "GOTO",
        Word::Gohome => "GOHOME",
        Word::Text => "TEXT",
        Word::Label => "label",
        Word::Jumpto => "JUMPTO",
        Word::Feat => "FEAT",
        Word::Ptmeas => "PTMEAS",
        Word::Snset => "SNSET",
        Word::Trans => "TRANS",
        Word::Rotate => "ROTATE",
        Word::Recall => "RECALL",
        Word::Obtain => "OBTAIN",
        Word::Output => "OUTPUT",
        Word::Macro => "MACRO",
        Word::Endmac => "ENDMAC",
        Word::Call => "CALL",
        Word::Endfil => "ENDFIL",
        Word::If => "IF",
        Word::Else => "ELSE",
        Word::Endif => "ENDIF",
        Word::Do => "DO",
        Word::Enddo => "ENDDO",
        Word::Meas => "MEAS",
        Word::Endmes => "ENDMES",
        Word::Select => "SELECT",
        Word::Case => "CASE",
        Word::Endcas => "ENDCAS",
        Word::Dftcas => "DFTCAS",
        Word::Endsel => "ENDSEL",
    }
}

/// The word that opens a block.
pub(crate) fn opener(block: Block) -> &'static str {
    match block {
        Block::If | Block::Else => "IF",
        Block::Do => "DO",
        Block::Meas => "MEAS",
        Block::Select | Block::Last => "SELECT",
        Block::Case => "CASE",
        Block::Default => "DFTCAS",
        Block::Macro => "MACRO",
    }
}

/// The word that closes it.
pub(crate) fn closer(block: Block) -> &'static str {
    match block {
        Block::If | Block::Else => "ENDIF",
        Block::Do => "ENDDO",
        Block::Meas => "ENDMES",
        Block::Select | Block::Last => "ENDSEL",
        Block::Case | Block::Default => "ENDCAS",
        Block::Macro => "ENDMAC",
    }
}

/// A kind as DECL has it.
pub(crate) fn kind_word(kind: Kind) -> &'static str {
    match kind {
        Kind::Int => "INTGR",
        Kind::Real => "REAL",
        Kind::Bool => "BOOL",
    }
}

/// An operator between two values.
pub(crate) fn operator(op: BinaryOp) -> &'static str {
    match op {
        BinaryOp::Add => "+",
        BinaryOp::Sub => "-",
        BinaryOp::Mul => "*",
        BinaryOp::Div => "/",
        BinaryOp::And => ".AND.",
        BinaryOp::Or => ".OR.",
        BinaryOp::Compare(relation) => relation_word(relation),
    }
}

// A relation.
fn relation_word(relation: Relation) -> &'static str {
    match relation {
        Relation::Equal => ".EQ.",
        Relation::NotEqual => ".NE.",
        Relation::Less => ".LT.",
        Relation::LessEqual => ".LE.",
        Relation::Greater => ".GT.",
        Relation::GreaterEqual => ".GE.",
    }
}

/// What stands in front of one value.
pub(crate) fn sign(prefix: Prefix) -> &'static str {
    match prefix {
        Prefix::Minus => "-",
        Prefix::Plus => "+",
        Prefix::Not => ".NOT.",
    }
}

/// What stands in front of a name and behind it.
pub(crate) fn around(sort: Sort) -> (&'static str, &'static str) {
    match sort {
        Sort::Variable => ("", ""),
        Sort::Feature => ("F(", ")"),
        Sort::Frame => ("D(", ")"),
        Sort::Label => ("(", ")"),
        Sort::Macro => ("M(", ")"),
    }
}

/// A code and its name.
pub(crate) fn code_words(code: FaultCode) -> &'static str {
    match code {
        FaultCode::NoMemory => "E00 NoMemory",
        FaultCode::BadByte => "E01 BadByte",
        FaultCode::LineTooLong => "E02 LineTooLong",
        FaultCode::TooManyLines => "E03 TooManyLines",
        FaultCode::DanglingContinuation => "E04 DanglingContinuation",
        FaultCode::UnknownStatement => "E05 UnknownStatement",
        FaultCode::BadSyntax => "E06 BadSyntax",
        FaultCode::TooFine => "E07 TooFine",
        FaultCode::NumberTooLarge => "E08 NumberTooLarge",
        FaultCode::TooDeep => "E09 TooDeep",
        FaultCode::NotQuarterTurn => "E10 NotQuarterTurn",
        FaultCode::NotAxis => "E11 NotAxis",
        FaultCode::BadOrder => "E12 BadOrder",
        FaultCode::DuplicateName => "E13 DuplicateName",
        FaultCode::UnknownName => "E14 UnknownName",
        FaultCode::BadType => "E15 BadType",
        FaultCode::Unbalanced => "E16 Unbalanced",
        FaultCode::JumpInward => "E17 JumpInward",
        FaultCode::MeasBody => "E18 MeasBody",
        FaultCode::BadArguments => "E19 BadArguments",
        FaultCode::TooLong => "E20 TooLong",
        FaultCode::TooManyNames => "E21 TooManyNames",
        FaultCode::Unsupported => "E22 Unsupported",
    }
}
