//! What is wrong with an expression.

use crate::about::{About, Sort};
use crate::names::Names;
use std::alloc::Global;
use vcm_expr::{BinaryOp, Expr, Piece, Prefix};
use vcm_items::operators::kind_of_binary;
use vcm_lines::FaultCode;
use vcm_num::{Kind, Literal, NoMemory};

/// A fault, and what it is about.
#[derive(Drop)]
pub(crate) struct Found {
    pub(crate) code: FaultCode,
    pub(crate) about: About,
}

/// A fault of a kind.
pub(crate) fn bad_type(about: About) -> Found {
    Found {
        code: FaultCode::BadType,
        about,
    }
}

/// A name that is missing.
pub(crate) fn unknown(about: About) -> Found {
    Found {
        code: FaultCode::UnknownName,
        about,
    }
}

// The kind of an operand beside another one: a whole number beside one with a point counts as one, but in products and quotients.
fn beside(op: BinaryOp, kind: Kind, other: Kind) -> Kind {
    match op {
        BinaryOp::Mul | BinaryOp::Div => kind,
        _ => match (kind, other) {
            (Kind::Int, Kind::Real) => Kind::Real,
            _ => kind,
        },
    }
}

// The kind that an operator gives.
fn joined(op: BinaryOp, left: Kind, right: Kind) -> Result<Kind, Found> {
    match kind_of_binary(op, beside(op, left, right), beside(op, right, left)) {
        Some(kind) => Ok(kind),
        None => Err(bad_type(About::Operator(op, left, right))),
    }
}

// The kind that a sign gives.
fn signed(prefix: Prefix, kind: Kind) -> Result<Kind, Found> {
    match (prefix, kind) {
        (Prefix::Not, Kind::Bool) => Ok(kind),
        (Prefix::Minus | Prefix::Plus, Kind::Int | Kind::Real) => Ok(kind),
        _ => Err(bad_type(About::Sign(prefix, kind))),
    }
}

// The kind of a number.
fn literal_kind(literal: Literal) -> Kind {
    match literal {
        Literal::Int(_) => Kind::Int,
        Literal::Thousandths(_) => Kind::Real,
    }
}

// Goes on by one part, where these kinds are there.
fn put_piece(
    alloc: Global,
    names: &Names,
    kinds: &mut Vec<Kind>,
    piece: &Piece,
) -> Result<Option<Found>, NoMemory> {
    let kind = match piece {
        Piece::Number(literal) => Ok(literal_kind(*literal)),
        Piece::Truth(_) => Ok(Kind::Bool),
        Piece::Variable(name, expansion) => match names.variable(name, *expansion) {
            Some(kind) => Ok(kind),
            None => Err(unknown(names.missing(alloc, Sort::Variable, name, *expansion)?)),
        },
        Piece::Front(prefix) => signed(*prefix, kinds.pop().unwrap_or(Kind::Int)),
        Piece::Between(op) => {
            let right = kinds.pop().unwrap_or(Kind::Int);
            let left = kinds.pop().unwrap_or(Kind::Int);
            joined(*op, left, right)
        }
    };
    match kind {
        Ok(kind) => {
            kinds.push(kind)?;
            Ok(None)
        }
        Err(found) => Ok(Some(found)),
    }
}

// Whether a value of this kind may stand where that one is wanted: a whole number may stand for a length.
fn suits(kind: Kind, wanted: Kind) -> bool {
    match (kind, wanted) {
        (Kind::Int, Kind::Int) | (Kind::Real, Kind::Real) | (Kind::Bool, Kind::Bool) => true,
        (Kind::Int, Kind::Real) => true,
        _ => false,
    }
}

/// The leftmost fault of an expression where this kind is wanted.
pub(crate) fn wrong(
    alloc: Global,
    names: &Names,
    e: &Expr,
    wanted: Kind,
) -> Result<Option<Found>, NoMemory> {
    let mut kinds = Vec::new(alloc);
    for piece in e.pieces() {
        if let Some(found) = put_piece(alloc, names, &mut kinds, piece)? {
            return Ok(Some(found));
        }
    }
    let kind = kinds.pop().unwrap_or(wanted);
    if suits(kind, wanted) {
        Ok(None)
    } else {
        Ok(Some(bad_type(About::Place(kind, wanted))))
    }
}
