//! Signs and negations before an operand.

ghost use Rattle.std.specs.Prelude.{◌≡◌, ◌≤◌, List, ◌∷◌, Err, length, IfOk, OnOk, IfErr};
ghost use Rattle.vcm_lines.specs.Fault.{NoMemoryOr, no_memory};
ghost use Rattle.vcm_expr.specs.Source.{Source, is_small, IsSize};
ghost use Rattle.vcm_expr.specs.Parser.{Parser, phrase, fronted_by, with_fronts};
ghost use Rattle.vcm_expr.specs.inner.Levels.{front_of as finds_front, Reads};
ghost use Rattle.vcm_expr.specs.declared.symbol.Symbol.{Symbol};

use crate::draft::Draft;
use crate::expression::{Prefix, Size};
use crate::levels::{Front, take_front};
use crate::symbol::Symbols;
use std::alloc::Global;
use vcm_lines::SourceFault;

/// The signs or negations that stand first, which are passed.
pub(crate) fn take_signs(
    alloc: Global,
    words: &mut Symbols<'_>,
    front: Front,
) -> Result<Vec<Prefix>, SourceFault>
    ensures ok { IfOk result (λ signs. (operand : Parser) → fronted_by is_small operand (finds_front front) words.old ≡ with_fronts is_small signs.items (operand words.new)) }
    ensures fault { IfErr result (λ f. f ≡ no_memory) }
    ensures shorter { OnOk result (length words.new ≤ length words.old) }
{
    let mut signs = Vec::new(alloc);
    'signs: while let Some(sign) = take_front(words, front) {
        signs.push(sign)?;
    }
    Ok(signs)
}

/// Puts signs or negations before the last expression, which is of this size.
pub(crate) fn with_signs(
    draft: &mut Draft,
    line: u32,
    signs: Vec<Prefix>,
    size: Size,
) -> Result<Size, SourceFault>
    requires { (e : Source) × (es : List Source) × (draft.old ≡ e ∷ es) × IsSize size e }
    ensures ok { IfOk result (λ s. (e : Source) (es : List Source) (r : List Symbol) → draft.old ≡ e ∷ es → IsSize size e
        → Reads (with_fronts is_small signs.items (phrase e r)) es draft.new s r) }
    ensures fault { IfErr result (NoMemoryOr (λ f. (f.line ≡ line) × ((e : Source) (es : List Source) (r : List Symbol) → draft.old ≡ e ∷ es → IsSize size e
        → with_fronts is_small signs.items (phrase e r) ≡ Err f.code))) }
{
    let mut signs = signs;
    let mut size = size;
    'signs: while let Some(sign) = signs.pop() {
        size = draft.prefixed(line, sign, size)?;
    }
    Ok(size)
}
