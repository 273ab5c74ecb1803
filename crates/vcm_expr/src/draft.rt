//! Expressions that are read or put together.

ghost use Rattle.std.specs.Prelude.{◌≡◌, ◌≤◌, ◌<◌, ◌⊎◌, List, [], ◌∷◌, false, IfOk, IfErr, OnErr};
ghost use Rattle.vcm_lines.specs.Fault.{NoMemoryOr, no_memory};
ghost use Rattle.vcm_lines.specs.declared.fault.FaultCode.{FaultCode};
ghost use Rattle.vcm_expr.specs.Source.{Source, Plain, Prefixed, Pair, is_small, IsSize};

use crate::expression::{Expr, Piece, Prefix, Size, Term, append_copies, too_deep};
use std::alloc::Global;
use std::marker::Model;
use vcm_lines::SourceFault;
use vcm_spec::BinaryOp;

/// The deepest that an expression may be.
const DEEPEST: u32 = vcm_num::DEEPEST_EXPRESSION as u32;

/// The most nodes that an expression may have.
const MOST_NODES: u32 = vcm_num::MOST_NODES as u32;

/// A size within the limits.
fn within(line: u32, depth: u32, nodes: u32) -> Result<Size, SourceFault>
    ensures ok { IfOk result (λ s. (s.depth ≡ depth) × (s.nodes ≡ nodes) × (depth ≤ 32) × (nodes ≤ 512)) }
    ensures fault { IfErr result (λ f. (f ≡ record { code = FaultCode.TooDeep; line = line }) × ((32 < depth) ⊎ (512 < nodes))) }
{
    if depth > DEEPEST || nodes > MOST_NODES {
        return Err(too_deep(line));
    }
    Ok(Size { depth, nodes })
}

/// Expressions that are there and wait for what stands between them. Contracts see it as their list, the last one first.
#[derive(Drop)]
pub struct Draft {
    pieces: Vec<Piece>,
}

impl Model for Draft {
    ghost use Rattle.std.specs.Prelude.{◌≡◌, List, []};
    ghost use Rattle.std.specs.Coded.{codes};
    ghost use Rattle.vcm_expr.specs.Source.{Source};
    ghost use Rattle.vcm_expr.specs.inner.SourceCodes.{source_coded};
    ghost use Rattle.vcm_expr.specs.inner.Pieces.{with_pieces, all_parts};

    ghost Value = { List Source };

    ghost coded = { Prim.hlevel (codes, source_coded) };

    ghost view = { λ d. with_pieces d.pieces.items [] };

    ghost invariant = { λ d. d.pieces.items ≡ all_parts (with_pieces d.pieces.items []) };
}

impl Draft {
    /// No expression, and memory for so many parts.
    ///
    /// # Errors
    ///
    /// Want of memory.
    pub fn new(alloc: Global, parts: usize) -> Result<Draft, SourceFault>
        ensures ok { IfOk result (λ d. d ≡ []) }
        ensures fault { IfErr result (λ f. f ≡ no_memory) }
    {
        let pieces = Vec::with_capacity(alloc, parts)?;
        Ok(Draft { pieces })
    }

    /// One more expression: a number, a truth value or a variable.
    ///
    /// # Errors
    ///
    /// Want of memory; then nothing is added.
    pub fn leaf(&mut self, term: Term) -> Result<Size, SourceFault>
        ensures ok { IfOk result (λ s. (self.new ≡ Plain term ∷ self.old) × IsSize s (Plain term)) }
        ensures fault { IfErr result (λ f. f ≡ no_memory) }
        ensures unchanged { OnErr result (self.new ≡ self.old) }
    {
        self.pieces.push(Piece::leaf(term))?;
        Ok(Size { depth: 1, nodes: 1 })
    }

    /// Puts a sign or a negation before the last expression, which is of this size.
    ///
    /// # Errors
    ///
    /// An expression that becomes too deep or too large, told at `line`; want of memory. Nothing is changed then.
    pub fn prefixed(&mut self, line: u32, prefix: Prefix, a: Size) -> Result<Size, SourceFault>
        requires { (e : Source) × (es : List Source) × (self.old ≡ e ∷ es) × IsSize a e }
        ensures ok { IfOk result (λ s. (e : Source) (es : List Source) → self.old ≡ e ∷ es → IsSize a e
            → (self.new ≡ Prefixed prefix e ∷ es) × IsSize s (Prefixed prefix e)) }
        ensures fault { IfErr result (NoMemoryOr (λ f. (f ≡ record { code = FaultCode.TooDeep; line = line })
            × ((e : Source) → IsSize a e → is_small (Prefixed prefix e) ≡ false))) }
        ensures unchanged { OnErr result (self.new ≡ self.old) }
    {
        let size = within(line, a.depth + 1, a.nodes + 1)?;
        self.pieces.push(Piece::Front(prefix))?;
        Ok(size)
    }

    /// Puts an operator between the last two expressions, which are of these sizes.
    ///
    /// # Errors
    ///
    /// An expression that becomes too deep or too large, told at `line`; want of memory. Nothing is changed then.
    pub fn joined(&mut self, line: u32, op: BinaryOp, a: Size, b: Size) -> Result<Size, SourceFault>
        requires { (e : Source) × (f : Source) × (es : List Source) × (self.old ≡ f ∷ (e ∷ es)) × IsSize a e × IsSize b f }
        ensures ok { IfOk result (λ s. (e f : Source) (es : List Source) → self.old ≡ f ∷ (e ∷ es) → IsSize a e → IsSize b f
            → (self.new ≡ Pair op e f ∷ es) × IsSize s (Pair op e f)) }
        ensures fault { IfErr result (NoMemoryOr (λ g. (g ≡ record { code = FaultCode.TooDeep; line = line })
            × ((e f : Source) → IsSize a e → IsSize b f → is_small (Pair op e f) ≡ false))) }
        ensures unchanged { OnErr result (self.new ≡ self.old) }
    {
        let depth = a.depth.max(b.depth) + 1;
        let nodes = a.nodes + b.nodes + 1;
        let size = within(line, depth, nodes)?;
        self.pieces.push(Piece::Between(op))?;
        Ok(size)
    }

    /// One more expression, a copy.
    ///
    /// # Errors
    ///
    /// Want of memory; then nothing is added.
    pub fn append(&mut self, e: &Expr) -> Result<Size, SourceFault>
        ensures ok { IfOk result (λ s. (self.new ≡ e.now ∷ self.old) × IsSize s e.now) }
        ensures fault { IfErr result (λ f. f ≡ no_memory) }
        ensures unchanged { OnErr result (self.new ≡ self.old) }
    {
        if let Some(term) = e.as_leaf() {
            let size = self.leaf(term)?;
            return Ok(size);
        }
        append_copies(&mut self.pieces, e.pieces())?;
        Ok(e.size())
    }

    /// The only expression, which is of this size.
    pub fn finish(self, size: Size) -> Expr
        requires { (e : Source) × (self ≡ e ∷ []) × IsSize size e }
        ensures { self ≡ result ∷ [] }
    {
        Expr::new(self.pieces, size)
    }
}
