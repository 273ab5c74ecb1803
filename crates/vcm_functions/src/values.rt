//! The values of functions, as whole numbers of billionths.

ghost use Rattle.std.specs.Prelude.{◌≡◌, ◌≤◌, ◌<◌, ◌++◌, OnOk};
ghost use Rattle.vcm_num.specs.Texts.{three_digits};
ghost use Rattle.vcm_functions.specs.declared.values.Function.TheVariants.{Nint};
ghost use Rattle.vcm_functions.specs.Values.{function_of, number, if_small, whole_number, root_of, radians, degrees, in_degrees, fine_arc, eighths, arc_behind, arc_left, sine_size, is_below, turned, in_billionths, sine, cosine, tangent_by, tangent, square_root, apply, short_digits, six_digits, nine_digits, point_text, size_text, step_of, in_steps, shortened, value_text};

use crate::cosines::{arc_cosine, arc_sine};
use vcm_num::{NoMemory, look_up, write_int};

/// A function of one number.
#[derive(Clone, Copy)]
pub enum Function {
    /// The square root.
    Sqrt,
    /// The sine of radians.
    Sin,
    /// The cosine of radians.
    Cos,
    /// The tangent of radians.
    Tan,
    /// Degrees as radians.
    Dtor,
    /// Radians as degrees.
    Rtod,
    /// The absolute value.
    Abs,
    /// The nearest whole number; halves are rounded away from zero.
    Nint,
    /// The whole number, cut towards zero.
    Int,
    /// The same number, with a point.
    Dble,
}

/// A number.
#[derive(Clone, Copy)]
pub struct Value {
    /// Whether it is below zero.
    pub negative: bool,
    /// Whether it is written with a point.
    pub point: bool,
    /// How many billionths it has, without its sign.
    pub billionths: u64,
}

/// The least number of billionths that is too large.
pub const MOST_BILLIONTHS: u64 = 1_000_000_000_000_000_000;

/// The function that a word in upper case names.
pub(crate) fn function_of(word: &[u8]) -> Option<Function>
    ensures { result ≡ function_of word.now }
{
    look_up(
        &[
            (b"SQRT", Function::Sqrt),
            (b"SIN", Function::Sin),
            (b"COS", Function::Cos),
            (b"TAN", Function::Tan),
            (b"DTOR", Function::Dtor),
            (b"RTOD", Function::Rtod),
            (b"ABS", Function::Abs),
            (b"NINT", Function::Nint),
            (b"INT", Function::Int),
            (b"DBLE", Function::Dble),
        ],
        word,
    )
}

// ---- numbers

/// A number of so many billionths, with a sign where it isn't zero.
pub(crate) fn number(point: bool, negative: bool, billionths: u64) -> Value
    ensures { result ≡ number point negative billionths }
{
    Value {
        negative: negative && billionths != 0,
        point,
        billionths,
    }
}

/// A value, where it is below ten to the ninth.
pub(crate) fn if_small(value: Value) -> Option<Value>
    ensures { result ≡ if_small value }
{
    if value.billionths < MOST_BILLIONTHS {
        Some(value)
    } else {
        None
    }
}

// So many whole ones.
fn whole_number(negative: bool, ones: u64) -> Value
    requires { ones ≤ 1000000000 }
    ensures { result ≡ whole_number negative ones }
{
    number(false, negative, ones * 1_000_000_000)
}

// ---- roots

// The root of so many billionths, in billionths, to the nearest one.
#[tactic(auto, using(crate::proofs::Roots::root_is))]
fn root_of(billionths: u64) -> u64
    requires { billionths < 1000000000000000000 }
    ensures { result ≡ root_of billionths }
{
    let twice = (4 * (u128::from(billionths) * 1_000_000_000)).isqrt();
    ((twice + 1) / 2) as u64
}

// ---- angles

// So many billionths of degrees in billionths of radians.
fn radians(billionths: u64) -> u64
    requires { billionths < 1000000000000000000 }
    ensures { result ≡ radians billionths }
{
    ((u128::from(billionths) * 174_532_925_199_432_957_692 + 5_000_000_000_000_000_000_000)
        / 10_000_000_000_000_000_000_000) as u64
}

// So many billionths of radians in billionths of degrees, where there are fewer than ten to the ninth.
fn degrees(billionths: u64) -> u128
    requires { billionths < 1000000000000000000 }
    ensures { result ≡ degrees billionths }
{
    (u128::from(billionths) * 57_295_779_513_082_320_877 + 500_000_000_000_000_000)
        / 1_000_000_000_000_000_000
}

// They, as a value where they are below ten to the ninth degrees.
fn in_degrees(negative: bool, billionths: u128) -> Option<Value>
    ensures { result ≡ in_degrees negative billionths }
{
    if billionths < 1_000_000_000_000_000_000 {
        Some(number(true, negative, billionths as u64))
    } else {
        None
    }
}

/// An eighth of a turn, in parts of which a radian has 2 to the 96th.
const EIGHTH: u128 = 62_225_653_328_057_771_307_630_486_156;

// So many billionths of radians, in such parts.
fn fine_arc(billionths: u64) -> u128
    requires { billionths < 1000000000000000000 }
    ensures { result ≡ fine_arc billionths }
{
    ((u128::from(billionths) * 18_446_744_073_709_551_616) / 1_000_000_000) * 4_294_967_296
}

// How many eighths of a turn there are in so many billionths of radians.
fn eighths(billionths: u64) -> u64
    requires { billionths < 1000000000000000000 }
    ensures is { result ≡ eighths billionths }
    ensures most { result ≤ 10000000000 }
{
    (fine_arc(billionths) / EIGHTH) as u64
}

// The arc behind them, in parts of which a radian has 2 to the 64th.
fn arc_behind(billionths: u64) -> u64
    requires { billionths < 1000000000000000000 }
    ensures is { result ≡ arc_behind billionths }
    ensures most { result ≤ 14488038916154245684 }
{
    ((fine_arc(billionths) % EIGHTH) / 4_294_967_296) as u64
}

// The arc that is left to the next eighth.
fn arc_left(arc: u64) -> u64
    requires { arc ≤ 14488038916154245684 }
    ensures { result ≡ arc_left arc }
{
    14_488_038_916_154_245_684 - arc
}

// The size of the sine behind so many eighths of a turn and an arc.
fn sine_size(eighths: u64, arc: u64) -> u64
    requires { arc ≤ 14488038916154245684 }
    ensures { result ≡ sine_size eighths arc }
{
    match eighths % 4 {
        0 => arc_sine(arc),
        1 => arc_cosine(arc_left(arc)),
        2 => arc_cosine(arc),
        _ => arc_sine(arc_left(arc)),
    }
}

// Whether it is below zero.
fn is_below(eighths: u64) -> bool
    ensures { result ≡ is_below eighths }
{
    4 <= eighths % 8
}

// A sign, turned about where this is so.
fn turned(about: bool, negative: bool) -> bool
    ensures { result ≡ turned about negative }
{
    if about { !negative } else { negative }
}

// Parts in billionths, to the nearest one.
fn in_billionths(parts: u64) -> u64
    ensures { result ≡ in_billionths parts }
{
    ((u128::from(parts) * 1_000_000_000 + 9_223_372_036_854_775_808)
        / 18_446_744_073_709_551_616) as u64
}

// The sine of a number.
fn sine(value: Value) -> Value
    requires { value.billionths < 1000000000000000000 }
    ensures { result ≡ sine value }
{
    let eighths = eighths(value.billionths);
    let size = sine_size(eighths, arc_behind(value.billionths));
    number(
        true,
        turned(is_below(eighths), value.negative),
        in_billionths(size),
    )
}

// The cosine of so many billionths.
fn cosine(billionths: u64) -> Value
    requires { billionths < 1000000000000000000 }
    ensures { result ≡ cosine billionths }
{
    let eighths = eighths(billionths) + 2;
    let size = sine_size(eighths, arc_behind(billionths));
    number(true, is_below(eighths), in_billionths(size))
}

// A sine by a cosine, where that isn't below a thousandth.
fn tangent_by(negative: bool, sine: u64, cosine: u64) -> Option<Value>
    ensures { result ≡ tangent_by negative sine cosine }
{
    if cosine < 18_446_744_073_709_552 {
        return None;
    }
    let billionths = (u128::from(sine) * 1_000_000_000 + u128::from(cosine) / 2)
        / u128::from(cosine);
    Some(number(true, negative, billionths as u64))
}

// The tangent of a number.
fn tangent(value: Value) -> Option<Value>
    requires { value.billionths < 1000000000000000000 }
    ensures { result ≡ tangent value }
{
    let eighths = eighths(value.billionths);
    let arc = arc_behind(value.billionths);
    let negative = turned(is_below(eighths + 2), value.negative);
    tangent_by(
        turned(is_below(eighths), negative),
        sine_size(eighths, arc),
        sine_size(eighths + 2, arc),
    )
}

// ---- functions

// The square root, of what isn't below zero.
fn square_root(value: Value) -> Option<Value>
    requires { value.billionths < 1000000000000000000 }
    ensures { result ≡ square_root value }
{
    if value.negative {
        None
    } else {
        Some(number(true, false, root_of(value.billionths)))
    }
}

// The nearest whole number.
fn nearest(value: Value) -> Option<Value>
    requires { value.billionths < 1000000000000000000 }
    ensures { result ≡ apply Nint value }
{
    if_small(whole_number(
        value.negative,
        (value.billionths + 500_000_000) / 1_000_000_000,
    ))
}

/// The value of a function by a number below ten to the ninth, if it has one below that: a root, sine, cosine, tangent, and degrees or radians to the nearest billionth,
/// none for the root of a number below zero, and for a tangent where the cosine is below a thousandth.
pub fn apply(function: Function, value: Value) -> Option<Value>
    requires { value.billionths < 1000000000000000000 }
    ensures { result ≡ apply function value }
{
    match function {
        Function::Sqrt => square_root(value),
        Function::Sin => Some(sine(value)),
        Function::Cos => Some(cosine(value.billionths)),
        Function::Tan => tangent(value),
        Function::Dtor => Some(number(true, value.negative, radians(value.billionths))),
        Function::Rtod => in_degrees(value.negative, degrees(value.billionths)),
        Function::Abs => Some(number(value.point, false, value.billionths)),
        Function::Nint => nearest(value),
        Function::Int => Some(whole_number(value.negative, value.billionths / 1_000_000_000)),
        Function::Dble => Some(number(true, value.negative, value.billionths)),
    }
}

// ---- texts

// Appends three digits.
fn put_three(number: u32, out: &mut Vec<u8>) -> Result<(), NoMemory>
    requires { number < 1000 }
    ensures { OnOk result (out.new.items ≡ out.old.items ++ three_digits number) }
{
    out.extend_from_slice(&[
        b'0' + (number / 100) as u8,
        b'0' + ((number / 10) % 10) as u8,
        b'0' + (number % 10) as u8,
    ])?;
    Ok(())
}

// Three digits without the zeros behind, but for the first.
fn put_short(number: u32, out: &mut Vec<u8>) -> Result<(), NoMemory>
    requires { number < 1000 }
    ensures { OnOk result (out.new.items ≡ out.old.items ++ short_digits number) }
{
    if number % 100 == 0 {
        out.push(b'0' + (number / 100) as u8)?;
        return Ok(());
    }
    if number % 10 == 0 {
        out.push(b'0' + (number / 100) as u8)?;
        out.push(b'0' + ((number / 10) % 10) as u8)?;
        return Ok(());
    }
    put_three(number, out)
}

// Six digits in the same way.
fn put_six(number: u32, out: &mut Vec<u8>) -> Result<(), NoMemory>
    requires { number < 1000000 }
    ensures { OnOk result (out.new.items ≡ out.old.items ++ six_digits number) }
{
    if number % 1_000 == 0 {
        put_short(number / 1_000, out)
    } else {
        put_three(number / 1_000, out)?;
        put_short(number % 1_000, out)
    }
}

// Nine of them.
fn put_nine(number: u32, out: &mut Vec<u8>) -> Result<(), NoMemory>
    requires { number < 1000000000 }
    ensures { OnOk result (out.new.items ≡ out.old.items ++ nine_digits number) }
{
    if number % 1_000_000 == 0 {
        put_short(number / 1_000_000, out)
    } else {
        put_three(number / 1_000_000, out)?;
        put_six(number % 1_000_000, out)
    }
}

// A point, and the decimals.
fn put_point(point: bool, number: u32, out: &mut Vec<u8>) -> Result<(), NoMemory>
    requires { number < 1000000000 }
    ensures { OnOk result (out.new.items ≡ out.old.items ++ point_text point number) }
{
    if point {
        out.push(b'.')?;
        put_nine(number, out)
    } else {
        Ok(())
    }
}

// A number without its sign.
fn put_size(value: Value, out: &mut Vec<u8>) -> Result<(), NoMemory>
    ensures { OnOk result (out.new.items ≡ out.old.items ++ size_text value) }
{
    write_int((value.billionths / 1_000_000_000) as i64, out)?;
    put_point(value.point, (value.billionths % 1_000_000_000) as u32, out)
}

// The least power of ten, up to a million, of which so many billionths are no more than 4294967295.
fn step_of(billionths: u64) -> u64
    ensures is { result ≡ step_of billionths }
    ensures some { 1 ≤ result }
    ensures most { result ≤ 1000000 }
{
    if billionths < 4_294_967_295 {
        1
    } else if billionths < 42_949_672_950 {
        10
    } else if billionths < 429_496_729_500 {
        100
    } else if billionths < 4_294_967_295_000 {
        1_000
    } else if billionths < 42_949_672_950_000 {
        10_000
    } else if billionths < 429_496_729_500_000 {
        100_000
    } else {
        1_000_000
    }
}

// A number in such steps, to the nearest one.
fn in_steps(step: u64, billionths: u64) -> u64
    requires some { 1 ≤ step }
    requires most { step ≤ 1000000 }
    requires small { billionths < 1000000000000000000 }
    ensures { result ≡ in_steps step billionths }
{
    (billionths + step / 2) / step * step
}

// A value with so few decimals that its digits stand in a fraction that is followed.
fn shortened(value: Value) -> Value
    ensures { result ≡ shortened value }
{
    if value.billionths < MOST_BILLIONTHS {
        let step = step_of(value.billionths);
        Value {
            billionths: in_steps(step, value.billionths),
            ..value
        }
    } else {
        value
    }
}

/// Appends a number with the decimals that it needs; one below zero in parentheses. From 4.294967296 on it has fewer than nine, so that it is a fraction that is
/// followed.
pub(crate) fn put_value(value: Value, out: &mut Vec<u8>) -> Result<(), NoMemory>
    ensures { OnOk result (out.new.items ≡ out.old.items ++ value_text value) }
{
    if !value.negative {
        return put_size(shortened(value), out);
    }
    out.extend_from_slice(b"(-")?;
    put_size(shortened(value), out)?;
    out.push(b')')?;
    Ok(())
}
