//! Expressions: as they are written, and typed; their postfix items and values.
#![tactic(auto)]

mod draft;
mod expression;
pub mod laws;
mod leaves;
mod levels;
mod names;
mod packed;
mod parse;
mod parser;
mod postfix;
mod scaling;
mod signs;
mod symbol;
mod typed;
mod typing;
mod value;

pub use draft::Draft;
pub use expression::{Expr, Piece, Prefix, Size, Term};
pub use names::Names;
pub use parse::{parse_expr, read_expr};
pub use postfix::to_postfix;
pub use symbol::Symbol;
pub use typed::Typed;
pub use typing::{Want, type_expr};
pub use value::eval;
pub use vcm_items::{eval_postfix, postfix_kind};
pub use vcm_num::{Fault, Kind};
pub use vcm_spec::{BinaryOp, Item, Operand, Relation, UnaryOp};
