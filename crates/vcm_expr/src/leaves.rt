//! The leaves of expressions as operands.

ghost use Rattle.std.specs.Prelude.{◌≡◌, List, Err, IfOk, IfErr};
ghost use Rattle.vcm_spec.specs.Expression.{Value};
ghost use Rattle.vcm_spec.specs.Setup.{Variable};
ghost use Rattle.vcm_expr.specs.declared.expression.Term.TheVariants as term;
ghost use Rattle.vcm_expr.specs.Typing.{kinded, leaf_of};

use crate::expression::Term;
use crate::names::Names;
use vcm_items::Name;
use vcm_lines::{FaultCode, SourceFault};
use vcm_num::{Kind, Literal};
use vcm_spec::Operand;

/// A number as an operand, and its kind.
pub(crate) fn number(literal: Literal) -> (Operand, Kind)
    ensures { (vs : List Variable) → leaf_of vs (term.Number literal) ≡ kinded (Value result.0) result.1 }
{
    match literal {
        Literal::Int(n) => (Operand::Integer(n), Kind::Int),
        Literal::Thousandths(n) => (Operand::Thousandths(n), Kind::Real),
    }
}

/// A variable as an operand, and its kind.
pub(crate) fn variable(
    name: &Name,
    expansion: u32,
    line: u32,
    names: &Names,
) -> Result<(Operand, Kind), SourceFault>
    ensures ok { IfOk result (λ p. leaf_of names.now (term.Variable name.now expansion) ≡ kinded (Value p.0) p.1) }
    ensures fault { IfErr result (λ f. (f.line ≡ line) × (leaf_of names.now (term.Variable name.now expansion) ≡ Err f.code)) }
{
    match names.find(expansion, name) {
        Some((index, kind)) => Ok((Operand::Variable(index), kind)),
        None => Err(SourceFault {
            code: FaultCode::UnknownName,
            line,
        }),
    }
}

/// A leaf as an operand, and its kind.
pub(crate) fn leaf(term: &Term, line: u32, names: &Names) -> Result<(Operand, Kind), SourceFault>
    ensures ok { IfOk result (λ p. leaf_of names.now term.now ≡ kinded (Value p.0) p.1) }
    ensures fault { IfErr result (λ f. (f.line ≡ line) × (leaf_of names.now term.now ≡ Err f.code)) }
{
    match term {
        Term::Number(literal) => Ok(number(*literal)),
        Term::Truth(truth) => Ok((Operand::Truth(*truth), Kind::Bool)),
        Term::Variable(name, expansion) => variable(name, *expansion, line, names),
    }
}
