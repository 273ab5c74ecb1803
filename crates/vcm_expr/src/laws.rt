//! Laws of the definitions, each the contract of a function without a body.

ghost use Rattle.std.specs.Prelude.{◌≡◌, ℕ, List, Result, Ok, Err};
ghost use Rattle.vcm_num.specs.Literals.{Reads};
ghost use Rattle.vcm_num.specs.declared.number.Literal.{Literal};
ghost use Rattle.vcm_num.specs.declared.read.NumFault.{NumFault};
ghost use Rattle.vcm_lines.specs.Lexemes.{Lexeme};
ghost use Rattle.vcm_lines.specs.declared.fault.FaultCode.{FaultCode};
ghost use Rattle.vcm_expr.specs.Digits.{read_of};
ghost use Rattle.vcm_expr.specs.Source.{Source};
ghost use Rattle.vcm_expr.specs.Grammar.{SpellsExpr};
ghost use Rattle.vcm_expr.specs.Parsing.{IsExpr, BreaksExpr, expr_of};
ghost use Rattle.vcm_expr.specs.declared.symbol.Symbol.{Symbol};

/// The reading of a number, as a function, is what the relation says of its bytes, and the relation says no more than one thing.
pub fn numbers_are_read()
    ensures read { (bytes : List ℕ) → Reads bytes (read_of bytes) }
    ensures one { (bytes : List ℕ) (r s : Result Literal NumFault) → Reads bytes r → Reads bytes s → r ≡ s }
{}

/// Symbols spell one expression at most, however deep and large it is.
pub fn symbols_spell_one_expression()
    ensures { (ps : List Symbol) (e f : Source) → SpellsExpr ps e → SpellsExpr ps f → e ≡ f }
{}

/// No words both spell an expression and break a rule.
pub fn words_spell_or_break()
    ensures { (ws : List Lexeme) (e : Source) (code : FaultCode) → IsExpr ws e → BreaksExpr ws code → ⊥ }
{}

/// The reading of words as an expression, a function, is what the grammar says of them.
pub fn words_are_read_as_the_grammar_says()
    ensures spelled { (ws : List Lexeme) (e : Source) → expr_of ws ≡ Ok e → IsExpr ws e }
    ensures refused { (ws : List Lexeme) (code : FaultCode) → expr_of ws ≡ Err code → BreaksExpr ws code }
    ensures read { (ws : List Lexeme) (e : Source) → IsExpr ws e → expr_of ws ≡ Ok e }
{}
