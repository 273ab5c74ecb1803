//! Expressions as they are written.

ghost use Rattle.std.specs.Prelude.{◌≡◌, ◌++◌, true, IfOk, IfErr, OnOk, OnErr};
ghost use Rattle.vcm_lines.specs.Fault.{no_memory};
ghost use Rattle.vcm_expr.specs.Source.{Plain, IsSize, is_small, parts, leaf_in, leaf_piece};
ghost use Rattle.vcm_expr.specs.inner.Pieces.{pieces_of, source_of, term_in};
ghost use Rattle.vcm_lines.specs.declared.fault.FaultCode.{FaultCode};

use std::alloc::Global;
use std::marker::Model;
use std::slice::from_ref;
use vcm_items::Name;
use vcm_lines::{FaultCode, SourceFault};
use vcm_num::Literal;
use vcm_spec::BinaryOp;

/// What may stand before an expression.
#[derive(Clone, Copy)]
pub enum Prefix {
    Minus,
    Plus,
    Not,
}

/// A leaf as it is written.
#[derive(Drop)]
pub enum Term {
    /// A number without a sign.
    Number(Literal),
    /// A truth value.
    Truth(bool),
    /// A variable's name, and the number of the expansion that it stands in (0 outside macros).
    Variable(Name, u32),
}

/// A part of an expression in postfix order: the operands first, the left one before the right one. Parentheses are no part, a plus before an
/// expression is one.
#[derive(Drop)]
pub enum Piece {
    /// A number without a sign.
    Number(Literal),
    /// A truth value.
    Truth(bool),
    /// A variable's name, and the number of the expansion that it stands in (0 outside macros).
    Variable(Name, u32),
    /// A sign or a negation.
    Front(Prefix),
    /// An operator on two values.
    Between(BinaryOp),
}

impl Piece {
    /// The part that a leaf is.
    pub(crate) fn leaf(term: Term) -> Piece
        ensures { result ≡ leaf_piece term }
    {
        match term {
            Term::Number(literal) => Piece::Number(literal),
            Term::Truth(truth) => Piece::Truth(truth),
            Term::Variable(name, expansion) => Piece::Variable(name, expansion),
        }
    }

    /// The leaf that it is, where it is one.
    fn as_term(&self) -> Option<Term>
        ensures { result ≡ term_in self.now }
    {
        match self {
            Piece::Number(literal) => Some(Term::Number(*literal)),
            Piece::Truth(truth) => Some(Term::Truth(*truth)),
            Piece::Variable(name, expansion) => Some(Term::Variable(name.copy(), *expansion)),
            Piece::Front(_) | Piece::Between(_) => None,
        }
    }

    /// The same part.
    fn copy(&self) -> Piece
        ensures { result ≡ self.now }
    {
        match self {
            Piece::Number(literal) => Piece::Number(*literal),
            Piece::Truth(truth) => Piece::Truth(*truth),
            Piece::Variable(name, expansion) => Piece::Variable(name.copy(), *expansion),
            Piece::Front(prefix) => Piece::Front(*prefix),
            Piece::Between(op) => Piece::Between(*op),
        }
    }
}

/// How deep an expression is, and how many nodes it has.
#[derive(Clone, Copy)]
pub struct Size {
    pub depth: u32,
    pub nodes: u32,
}

impl Default for Size {
    fn default() -> Size {
        Size { depth: 0, nodes: 0 }
    }
}

/// The parts of an expression, as they are kept: a leaf without parentheses takes no memory.
#[derive(Drop)]
pub enum PieceList {
    One(Piece),
    Many(Vec<Piece>),
}

/// An expression as it is written, at most 32 deep and of at most 512 nodes. Contracts see it as a `Source`.
#[derive(Drop)]
pub struct Expr {
    list: PieceList,
    size: Size,
}

impl Model for Expr {
    ghost use Rattle.std.specs.Prelude.{◌≡◌};
    ghost use Rattle.vcm_expr.specs.Source.{Source, IsSize, parts};
    ghost use Rattle.vcm_expr.specs.inner.SourceCodes.{source_coded};

    ghost Value = { Source };

    ghost coded = { source_coded };

    ghost use Rattle.vcm_expr.specs.inner.Pieces.{pieces_of, source_of};

    ghost view = { λ e. source_of e.list };

    ghost invariant = { λ e. (pieces_of e.list ≡ parts (source_of e.list)) × IsSize e.size (source_of e.list) };
}

impl Expr {
    ghost use Rattle.vcm_expr.specs.Source.{Source};

    /// A number, a truth value or a variable.
    pub fn leaf(term: Term) -> Expr
        ensures { result ≡ Plain term }
    {
        Expr {
            list: PieceList::One(Piece::leaf(term)),
            size: Size { depth: 1, nodes: 1 },
        }
    }

    /// The expression that parts in postfix order are.
    pub(crate) fn new(pieces: Vec<Piece>, size: Size) -> Expr
        requires { (e : Source) × (pieces.items ≡ parts e) × IsSize size e }
        ensures { pieces.items ≡ parts result }
    {
        Expr {
            list: PieceList::Many(pieces),
            size,
        }
    }

    /// The same expression.
    ///
    /// # Errors
    ///
    /// Want of memory.
    pub fn copy(&self, alloc: Global) -> Result<Expr, SourceFault>
        ensures ok { IfOk result (λ e. e ≡ self.now) }
        ensures small { is_small self.now ≡ true }
        ensures fault { IfErr result (λ f. f ≡ no_memory) }
    {
        let list = match &self.list {
            PieceList::One(piece) => PieceList::One(piece.copy()),
            PieceList::Many(pieces) => {
                let mut copy = Vec::new(alloc);
                append_copies(&mut copy, pieces)?;
                PieceList::Many(copy)
            }
        };
        Ok(Expr {
            list,
            size: self.size,
        })
    }

    /// How deep it is, and how many nodes it has.
    pub(crate) fn size(&self) -> Size
        ensures { IsSize result self.now }
    {
        self.size
    }

    /// The number, truth value or variable that it is, where it is one.
    pub fn as_leaf(&self) -> Option<Term>
        ensures { result ≡ leaf_in self.now }
    {
        let (first, others) = self.pieces().split_first()?;
        if others.is_empty() {
            return first.as_term();
        }
        None
    }

    /// Its parts in postfix order.
    pub fn pieces(&self) -> &[Piece]
        ensures parts { result.now ≡ parts self.now }
        ensures small { is_small self.now ≡ true }
    {
        match &self.list {
            PieceList::One(piece) => from_ref(piece),
            PieceList::Many(pieces) => pieces.as_slice(),
        }
    }
}

/// Appends the same parts.
pub(crate) fn append_copies(pieces: &mut Vec<Piece>, others: &[Piece]) -> Result<(), SourceFault>
    ensures ok { OnOk result (pieces.new.items ≡ pieces.old.items ++ others.now) }
    ensures fault { IfErr result (λ f. f ≡ no_memory) }
    ensures unchanged { OnErr result (pieces.new.items ≡ pieces.old.items) }
{
    pieces.reserve(others.len())?;
    for piece in others {
        match piece {
            Piece::Number(literal) => pieces.push_reserved(Piece::Number(*literal)),
            Piece::Truth(truth) => pieces.push_reserved(Piece::Truth(*truth)),
            Piece::Variable(name, expansion) => {
                pieces.push_reserved(Piece::Variable(name.copy(), *expansion));
            }
            Piece::Front(prefix) => pieces.push_reserved(Piece::Front(*prefix)),
            Piece::Between(op) => pieces.push_reserved(Piece::Between(*op)),
        }
    }
    Ok(())
}

/// The refusal of an expression that is too deep or too large.
pub(crate) fn too_deep(line: u32) -> SourceFault
    ensures { result ≡ record { code = FaultCode.TooDeep; line = line } }
{
    SourceFault {
        code: FaultCode::TooDeep,
        line,
    }
}
