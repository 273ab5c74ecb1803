//! Laws of the definitions, each the contract of a function without a body.

ghost use Rattle.std.specs.Prelude.{◌≡◌, ◌∷◌, ◌++◌, [], ℕ, List, false, Some, None};
ghost use Rattle.std.specs.List.{list_any};
ghost use Rattle.vcm_lines.specs.Cuts.{before, after, fields_of, last_of, front_of, uncut, with_commas, has_cut};
ghost use Rattle.vcm_lines.specs.Lexemes.{Lexeme};
ghost use Rattle.vcm_lines.specs.declared.phrase.Cutter.{Cutter};
ghost use Rattle.vcm_lines.specs.Segments.{segments_of};
ghost use Rattle.vcm_lines.specs.Laws.{spelled, AreSegments};
ghost use Rattle.vcm_lines.specs.Statements.{KeptLine, AreLogical, Breaks, told_line};
ghost use Rattle.vcm_lines.specs.Leftmost.{first_fault};
ghost use Rattle.vcm_lines.specs.declared.fault.SourceFault.{SourceFault};
ghost use Rattle.vcm_spec.specs.Phase.{IsClean, FirstFault};
ghost use Rattle.vcm_lines.specs.declared.logical.Logical.{Logical};

/// The segments of a line are what it is cut into: they spell it, and each is what it is called.
pub fn segments_are_a_cut()
    ensures spelled { (line : List ℕ) → spelled (segments_of line) ≡ line }
    ensures segments { (line : List ℕ) → AreSegments (segments_of line) }
{}

/// A text has one list of statements: two that meet the definition, whatever its kept lines are, are equal.
pub fn statements_are_one()
    ensures { (rows : List (List KeptLine)) (xs ys : List Logical) → AreLogical rows xs → AreLogical rows ys → xs ≡ ys }
{}

/// The computed first fault of a text's lines is one by the rules, at its line; and where none is computed no rule is broken.
pub fn first_fault_is_computed()
    ensures told { (ls : List (List ℕ)) (f : SourceFault) → first_fault ls ≡ Some f → FirstFault Breaks told_line ls f.code f.line }
    ensures none { (ls : List (List ℕ)) → first_fault ls ≡ None → IsClean Breaks ls }
{}

/// The words before and after a mark, and the fields between commas, are what the words are cut into: put together they are the words
/// again, and no part has a mark that they are cut at. So are the last word and those before it.
pub fn cuts_are_whole()
    ensures parts { (m : Cutter) (ws : List Lexeme) → uncut m (before m ws) (after m ws) ≡ ws }
    ensures first { (m : Cutter) (ws : List Lexeme) → has_cut m (before m ws) ≡ false }
    ensures fields { (ws : List Lexeme) → with_commas (fields_of ws) ≡ ws }
    ensures each { (ws : List Lexeme) → list_any (has_cut Cutter.AtComma) (fields_of ws) ≡ false }
    ensures ends { (w : Lexeme) (ws : List Lexeme) → front_of (w ∷ ws) ++ last_of (w ∷ ws) ∷ [] ≡ w ∷ ws }
{}
