//! Arithmetic that answers a fault where the exact result lies outside 64 bits.

ghost use Rattle.std.specs.Prelude.{◌≡◌, pos, ◌+ℤ◌, ◌-ℤ◌, ◌*ℤ◌, neg_ℤ};
ghost use Rattle.vcm_num.specs.Number.{checked, quotient};

use crate::number::Fault;

/// The sum.
pub fn add(x: i64, y: i64) -> Result<i64, Fault>
    ensures { result ≡ checked (x +ℤ y) }
{
    let (sum, overflows) = x.overflowing_add(y);
    if overflows {
        return Err(Fault::Overflow);
    }
    Ok(sum)
}

/// The difference.
pub fn sub(x: i64, y: i64) -> Result<i64, Fault>
    ensures { result ≡ checked (x -ℤ y) }
{
    let (rest, overflows) = x.overflowing_sub(y);
    if overflows {
        return Err(Fault::Overflow);
    }
    Ok(rest)
}

/// The product.
pub fn mul(x: i64, y: i64) -> Result<i64, Fault>
    ensures { result ≡ checked (x *ℤ y) }
{
    let (product, overflows) = x.overflowing_mul(y);
    if overflows {
        return Err(Fault::Overflow);
    }
    Ok(product)
}

/// The quotient, cut off towards zero.
pub fn div(x: i64, y: i64) -> Result<i64, Fault>
    ensures { result ≡ quotient x y }
{
    if y == 0 {
        return Err(Fault::DivZero);
    }
    x.checked_div(y).ok_or(Fault::Overflow)
}

/// The opposite.
pub fn neg(x: i64) -> Result<i64, Fault>
    ensures { result ≡ checked (neg_ℤ x) }
{
    x.checked_neg().ok_or(Fault::Overflow)
}

/// A thousand times the number.
pub fn scale(x: i64) -> Result<i64, Fault>
    ensures { result ≡ checked (x *ℤ pos 1000) }
{
    mul(x, 1000)
}
