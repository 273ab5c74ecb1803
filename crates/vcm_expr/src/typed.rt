//! Typed expressions.

ghost use Rattle.std.specs.Prelude.{◌≡◌, ◌≤◌};
ghost use Rattle.vcm_spec.specs.Expression.{Tree, Value, One, depth, nodes, spelling};
ghost use Rattle.vcm_spec.specs.declared.expression.UnaryOp.{UnaryOp};
ghost use Rattle.vcm_expr.specs.inner.Trees.{tree_of, items_of};

use crate::expression::Piece;
use crate::packed::PackedItem;
use crate::typing::Want;
use std::marker::Model;
use vcm_num::Literal;
use vcm_spec::Operand;

/// How a typed expression is kept. One without an operator, or with a scaling alone, takes no memory.
#[derive(Drop)]
pub enum Kept {
    /// A number, a truth value or a variable.
    Leaf(Operand),
    /// One that is scaled.
    Scaled(Operand),
    /// Operands and operators in postfix order.
    Postfix(Vec<PackedItem>),
}

/// An expression whose kinds are known and whose scalings are written out, at most 32 deep and of at most 512 nodes, scalings left out.
/// Contracts see it as a `Tree`.
#[derive(Drop)]
pub struct Typed {
    kept: Kept,
}

impl Model for Typed {
    ghost use Rattle.std.specs.Prelude.{◌≡◌, ◌≤◌};
    ghost use Rattle.vcm_spec.specs.Expression.{Tree, depth, nodes, spelling};
    ghost use Rattle.vcm_expr.specs.inner.Codes.{tree_coded};

    ghost Value = { Tree };

    ghost coded = { tree_coded };

    ghost use Rattle.vcm_expr.specs.inner.Trees.{tree_of, items_of};

    ghost view = { λ t. tree_of t.kept };

    ghost invariant = { λ t. (items_of t.kept ≡ spelling (tree_of t.kept)) × (depth (tree_of t.kept) ≤ 32) × (nodes (tree_of t.kept) ≤ 512) };
}

impl Typed {
    /// A number, a truth value or a variable.
    pub fn leaf(x: Operand) -> Typed
        ensures { result ≡ Value x }
    {
        Typed {
            kept: Kept::Leaf(x),
        }
    }

    /// A whole number or a variable of whole numbers, scaled.
    pub(crate) fn scaled(x: Operand) -> Typed
        ensures { result ≡ One UnaryOp.Scale (Value x) }
    {
        Typed {
            kept: Kept::Scaled(x),
        }
    }

    /// The expression that postfix items spell.
    pub(crate) fn new(items: Vec<PackedItem>) -> Typed
        requires { (t : Tree) × (items.items ≡ spelling t) × (depth t ≤ 32) × (nodes t ≤ 512) }
        ensures { items.items ≡ spelling result }
    {
        Typed {
            kept: Kept::Postfix(items),
        }
    }

    /// How the expression is kept.
    pub(crate) fn kept(&self) -> &Kept
        ensures items { items_of result.now ≡ spelling self.now }
        ensures shallow { depth self.now ≤ 32 }
        ensures few { nodes self.now ≤ 512 }
    {
        &self.kept
    }
}

/// Whether a part is a whole number.
fn is_whole(piece: &Piece) -> bool {
    matches!(piece, Piece::Number(Literal::Int(_)))
}

/// For how many items room is made first: one for each part, and where a length is wanted, one to scale each whole number.
pub(crate) fn usual_items(pieces: &[Piece], want: Want) -> usize {
    let scaled = match want {
        Want::Length => pieces.iter().filter(|piece| is_whole(piece)).count(),
        Want::Int | Want::Bool => 0,
    };
    pieces.len().saturating_add(scaled)
}
