//! Sines and cosines as whole numbers.

ghost use Rattle.std.specs.Prelude.{◌≡◌, ◌≤◌, pos};
ghost use Rattle.vcm_functions.specs.Cosines.{product, one_less, cosine_by, sine_by, arc_cosine, arc_sine, arc, cosine, part_of};

/// What stands for one: one less than the parts that one has.
pub const MOST_PARTS: u64 = 18_446_744_073_709_551_615;

// A part of a part.
fn product(a: u64, b: u64) -> u64
    ensures { result ≡ product a b }
{
    ((u128::from(a) * u128::from(b)) / 18_446_744_073_709_551_616) as u64
}

// One less the square of an angle by a number, by what comes behind it in the series.
fn one_less(square: u64, number: u64, behind: u64) -> u64
    requires { 1 ≤ number }
    ensures { result ≡ one_less square number behind }
{
    MOST_PARTS - product(square, behind) / number
}

// The cosine of an angle by its square.
fn cosine_by(square: u64) -> u64
    ensures { result ≡ cosine_by square }
{
    let tenth = one_less(square, 90, one_less(square, 132, MOST_PARTS));
    let sixth = one_less(square, 30, one_less(square, 56, tenth));
    one_less(square, 2, one_less(square, 12, sixth))
}

// Its sine by the angle itself.
fn sine_by(square: u64) -> u64
    ensures { result ≡ sine_by square }
{
    let tenth = one_less(square, 110, one_less(square, 156, MOST_PARTS));
    let sixth = one_less(square, 42, one_less(square, 72, tenth));
    one_less(square, 6, one_less(square, 20, sixth))
}

/// The cosine of an arc up to an eighth of a turn, both in parts of which one has 2 to the 64th.
pub fn arc_cosine(arc: u64) -> u64
    ensures { result ≡ arc_cosine arc }
{
    cosine_by(product(arc, arc))
}

/// The sine of an arc up to an eighth of a turn, both in parts of which one has 2 to the 64th.
pub fn arc_sine(arc: u64) -> u64
    ensures { result ≡ arc_sine arc }
{
    product(arc, sine_by(product(arc, arc)))
}

// The length of the arc of an angle up to 45 degrees, in millionths of a degree.
fn arc(angle: u32) -> u64
    requires { angle ≤ 45000000 }
    ensures { result ≡ arc angle }
{
    ((u128::from(angle) * 321_956_420_358_983_237_439) / 1_000_000_000) as u64
}

/// The cosine of an angle up to 90 degrees, in millionths of a degree, in parts of which one has 2 to the 64th.
pub fn cosine(angle: u32) -> u64
    requires { angle ≤ 90000000 }
    ensures { result ≡ cosine angle }
{
    if angle <= 45_000_000 {
        arc_cosine(arc(angle))
    } else {
        arc_sine(arc(90_000_000 - angle))
    }
}

/// A length of ten metres at most, in micrometres, by parts of which one has 2 to the 64th, to the nearest micrometre.
pub fn part_of(length: u32, parts: u64) -> i32
    requires { length ≤ 10000000 }
    ensures is { result ≡ pos (part_of length parts) }
    ensures most { part_of length parts ≤ 10000000 }
{
    ((u128::from(length) * u128::from(parts) + 9_223_372_036_854_775_808)
        / 18_446_744_073_709_551_616) as i32
}
