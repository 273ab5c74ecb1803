//! Values that are given, as expressions.

ghost use Rattle.std.specs.Prelude.{◌≡◌, IfOk};
ghost use Rattle.vcm_given.specs.Values.{given_value};

use crate::choices::Value;
use std::alloc::Global;
use vcm_events::{length, unknown, whole};
use vcm_expr::{Expr, Term};
use vcm_lines::OwnedBytes;
use vcm_num::NoMemory;

impl Value {
    /// The same value.
    pub(crate) fn copy(&self, alloc: Global) -> Result<Value, NoMemory>
        ensures { IfOk result (λ v. v ≡ self.now) }
    {
        match self {
            Value::Int(number) => Ok(Value::Int(*number)),
            Value::Real(number) => Ok(Value::Real(*number)),
            Value::Truth(truth) => Ok(Value::Truth(*truth)),
            Value::Text(text) => Ok(Value::Text(OwnedBytes::copied(alloc, text.as_bytes())?)),
        }
    }
}

/// A value that is given.
pub(crate) fn given(alloc: Global, value: &Value) -> Result<Expr, NoMemory>
    ensures { IfOk result (λ e. e ≡ given_value value.now) }
{
    match value {
        Value::Int(number) => whole(alloc, *number),
        Value::Real(number) => length(alloc, *number),
        Value::Truth(truth) => Ok(Expr::leaf(Term::Truth(*truth))),
        Value::Text(_) => Ok(unknown()),
    }
}
