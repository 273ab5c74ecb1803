//! Intervals of ten-millionths.

ghost use Rattle.std.specs.Prelude.{◌≡◌, ◌≤◌, ◌+◌, ◌*◌, ℕ, pos, ◌+ℤ◌, ◌-ℤ◌, ◌*ℤ◌, ◌≤ℤ◌, neg_ℤ, unsigned_abs};
ghost use Rattle.std.specs.Int.{int_div_euclid};
ghost use Rattle.vcm_hardware.specs.Intervals.{floor_one, ceil_one, half_up, root_down, rounded_up, root_up, least_of, greatest_of, product, negative, scaled, sum_of, middle, least_size, greatest_size, wide, across, less};
ghost use Rattle.vcm_hardware.specs.inner.Sizes.{IsUnit, IsWithin, IsFar};

/// How many ten-millionths 1 has.
const ONE: i128 = 10_000_000;

/// What a sine, a cosine or a product of them lies between, in ten-millionths.
#[derive(Clone, Copy)]
pub struct Ratio {
    pub low: i32,
    pub high: i32,
}

/// What a number lies between, in ten-millionths.
#[derive(Clone, Copy)]
pub struct Interval {
    pub low: i128,
    pub high: i128,
}

/// A number of ten-millionths as a whole number, down.
pub fn floor_one(z: i128) -> i128
    ensures value { result ≡ floor_one z }
    ensures small { unsigned_abs result * 10000000 ≤ unsigned_abs z + 9999999 }
{
    z.div_euclid(ONE)
}

/// Up.
pub fn ceil_one(z: i128) -> i128
    requires { unsigned_abs z ≤ 170000000000000000000000000000000000000 }
    ensures value { result ≡ ceil_one z }
    ensures small { unsigned_abs result * 10000000 ≤ unsigned_abs z + 9999999 }
{
    -floor_one(-z)
}

/// Half of a number, up.
pub fn half_up(z: i128) -> i128
    requires { unsigned_abs z ≤ 170000000000000000000000000000000000000 }
    ensures value { result ≡ half_up z }
    ensures small { unsigned_abs result * 2 ≤ unsigned_abs z + 2 }
{
    (z + 1).div_euclid(2)
}

/// Half of a diameter, up.
pub fn radius_of(diameter: i32) -> i128
    ensures value { result ≡ half_up diameter }
    ensures small { unsigned_abs result ≤ 1073741825 }
{
    half_up(i128::from(diameter))
}

// The root of a number, down.
fn root_down(n: u128) -> u128
    ensures value { result ≡ root_down n }
    ensures below { result * result ≤ n }
    ensures above { n + 1 ≤ (result + 1) * (result + 1) }
    ensures small { result ≤ 18446744073709551615 }
{
    n.isqrt()
}

// The root of a number, up.
#[tactic(auto, using(crate::proofs::Roots::exact_root, crate::proofs::Roots::next_root))]
fn root_over(n: u128) -> u128
    ensures value { result ≡ rounded_up n (root_down n) }
    ensures small { result ≤ 18446744073709551616 }
    ensures least { (c : ℕ) → n ≤ c * c → result ≤ c }
{
    let root = root_down(n);
    if root * root == n { root } else { root + 1 }
}

/// The root of a number, up; that of a number below 0 is 0.
pub fn root_up(z: i128) -> i128
    ensures value { result ≡ root_up z }
    ensures small { unsigned_abs result ≤ 18446744073709551616 }
    ensures least { (c : ℕ) → z ≤ℤ pos (c * c) → unsigned_abs result ≤ c }
{
    if z < 0 {
        return 0;
    }
    root_over(z as u128) as i128
}

// A product of two ends.
fn times(x: i32, y: i32) -> i128
    requires x { unsigned_abs x ≤ 10000000 }
    requires y { unsigned_abs y ≤ 10000000 }
    ensures value { result ≡ x *ℤ y }
    ensures small { unsigned_abs result ≤ 100000000000000 }
{
    i128::from(x) * i128::from(y)
}

/// A product with a number of 32 bits.
#[tactic(auto, using(crate::proofs::Floors::spread_fits))]
pub fn spread(x: i32, y: i128) -> i128
    requires { unsigned_abs y ≤ 18446744073709551616 }
    ensures value { result ≡ x *ℤ y }
    ensures far { unsigned_abs result ≤ 39614081257132168796771975168 }
    ensures small { (n : ℕ) → unsigned_abs y ≤ n → unsigned_abs result ≤ 2147483648 * n }
{
    i128::from(x) * y
}

// A product with a slope.
#[tactic(auto, using(crate::proofs::Floors::slope_fits))]
fn slope_times(slope: i128, x: i128) -> i128
    requires slope { unsigned_abs slope ≤ 21474836480000001 }
    requires far { unsigned_abs x ≤ 27670116110564327424 }
    ensures value { result ≡ slope *ℤ x }
    ensures far { unsigned_abs result ≤ 594211218856982559621695738084327424 }
    ensures small { (n : ℕ) → unsigned_abs x ≤ n → unsigned_abs result ≤ 21474836480000001 * n }
{
    slope * x
}

/// A quotient, down.
pub fn quotient_down(over: i128, under: i128) -> i128
    requires { pos 1 ≤ℤ under }
    ensures value { result ≡ int_div_euclid over under }
    ensures less { unsigned_abs result ≤ unsigned_abs over }
    ensures small { (k : ℕ) → unsigned_abs over ≤ k * unsigned_abs under → unsigned_abs result ≤ k }
{
    over.div_euclid(under)
}

/// A square.
#[tactic(auto, using(crate::proofs::Floors::square_fits, crate::proofs::Floors::square_small))]
pub fn square(x: i128) -> i128
    requires { unsigned_abs x ≤ 4611686020574871767 }
    ensures value { result ≡ x *ℤ x }
    ensures small { unsigned_abs result ≤ 21267647952365696582663672228493702289 }
{
    x * x
}

// A count as a number with a sign.
fn signed(n: u128) -> i128
    requires { n ≤ 12000000000000000000001 }
    ensures value { result ≡ pos n }
    ensures small { unsigned_abs result ≤ 12000000000000000000001 }
{
    n as i128
}

/// So many of as many equal parts of a length, down.
#[tactic(auto, using(crate::proofs::Floors::share_fits))]
pub fn share(length: i128, parts: u128, of_them: u128) -> i128
    requires length { unsigned_abs length ≤ 5538318189412 }
    requires some { 1 ≤ parts }
    requires few { parts ≤ 12000000000000000000001 }
    requires within { of_them ≤ parts }
    requires near { of_them ≤ 12000000000000000000001 }
    ensures value { result ≡ int_div_euclid (pos of_them *ℤ length) (pos parts) }
    ensures small { unsigned_abs result ≤ 5538318189412 }
{
    let run = signed(of_them) * length;
    quotient_down(run, signed(parts))
}

// The least and the greatest of four.
fn least_of(a: i128, b: i128, c: i128, d: i128) -> i128
    requires a { unsigned_abs a ≤ 100000000000000 }
    requires b { unsigned_abs b ≤ 100000000000000 }
    requires c { unsigned_abs c ≤ 100000000000000 }
    requires d { unsigned_abs d ≤ 100000000000000 }
    ensures value { result ≡ least_of a b c d }
    ensures small { unsigned_abs result ≤ 100000000000000 }
{
    a.min(b).min(c.min(d))
}

fn greatest_of(a: i128, b: i128, c: i128, d: i128) -> i128
    requires a { unsigned_abs a ≤ 100000000000000 }
    requires b { unsigned_abs b ≤ 100000000000000 }
    requires c { unsigned_abs c ≤ 100000000000000 }
    requires d { unsigned_abs d ≤ 100000000000000 }
    ensures value { result ≡ greatest_of a b c d }
    ensures small { unsigned_abs result ≤ 100000000000000 }
{
    a.max(b).max(c.max(d))
}

// A product of two ends as one end, down and up.
fn unit_down(z: i128) -> i32
    requires { unsigned_abs z ≤ 100000000000000 }
    ensures value { result ≡ floor_one z }
    ensures unit { unsigned_abs result ≤ 10000000 }
{
    floor_one(z) as i32
}

fn unit_up(z: i128) -> i32
    requires { unsigned_abs z ≤ 100000000000000 }
    ensures value { result ≡ ceil_one z }
    ensures unit { unsigned_abs result ≤ 10000000 }
{
    ceil_one(z) as i32
}

/// What a product lies between.
pub fn product(x: Ratio, y: Ratio) -> Ratio
    requires x { IsUnit x }
    requires y { IsUnit y }
    ensures value { result ≡ product x y }
    ensures unit { IsUnit result }
{
    let a = times(x.low, y.low);
    let b = times(x.low, y.high);
    let c = times(x.high, y.low);
    let d = times(x.high, y.high);
    Ratio {
        low: unit_down(least_of(a, b, c, d)),
        high: unit_up(greatest_of(a, b, c, d)),
    }
}

/// What the negative lies between.
pub fn negative(x: Ratio) -> Ratio
    requires { IsUnit x }
    ensures value { result ≡ negative x }
    ensures unit { IsUnit result }
{
    Ratio {
        low: -x.high,
        high: -x.low,
    }
}

// How far it is from one number to another.
fn apart(from: i32, to: i32) -> i128
    ensures value { result ≡ to -ℤ from }
    ensures small { unsigned_abs result ≤ 4294967296 }
{
    i128::from(to) - i128::from(from)
}

// So far times a number.
#[tactic(auto, using(crate::proofs::Floors::way_fits))]
fn way_times(way: i128, x: i32) -> i128
    requires { unsigned_abs way ≤ 4294967296 }
    ensures value { result ≡ way *ℤ x }
    ensures small { unsigned_abs result ≤ 9223372036854775808 }
{
    way * i128::from(x)
}

/// What the way from one number to another, times a ratio, lies between.
pub fn scaled(from: i32, to: i32, x: Ratio) -> Interval
    ensures value { result ≡ scaled (to -ℤ from) x }
    ensures small { IsWithin 9223372036854775808 result }
{
    let way = apart(from, to);
    let a = way_times(way, x.low);
    let b = way_times(way, x.high);
    Interval {
        low: a.min(b),
        high: a.max(b),
    }
}

/// What a sum of three lies between.
pub fn sum_of(x: Interval, y: Interval, z: Interval) -> Interval
    requires x { IsWithin 9223372036854775808 x }
    requires y { IsWithin 9223372036854775808 y }
    requires z { IsWithin 9223372036854775808 z }
    ensures value { result ≡ sum_of x y z }
    ensures far { IsFar result }
{
    Interval {
        low: x.low + y.low + z.low,
        high: x.high + y.high + z.high,
    }
}

/// The middle of what a ratio lies between, down.
pub fn middle(x: Ratio) -> i128
    ensures value { result ≡ middle x }
    ensures small { unsigned_abs result ≤ 2147483648 }
{
    (i128::from(x.low) + i128::from(x.high)).div_euclid(2)
}

/// A ratio as an interval.
pub fn wide(x: Ratio) -> Interval
    ensures value { result ≡ wide x }
    ensures small { IsWithin 2147483648 result }
{
    Interval {
        low: i128::from(x.low),
        high: i128::from(x.high),
    }
}

/// The least absolute value in an interval.
pub fn least_size(x: Interval) -> i128
    requires { IsWithin 5000000000000000000 x }
    ensures value { result ≡ least_size x }
    ensures small { (n : ℕ) → IsWithin n x → unsigned_abs result ≤ n }
{
    x.low.max(-x.high).max(0)
}

/// The greatest.
pub fn greatest_size(x: Interval) -> i128
    requires { IsWithin 2147483648 x }
    ensures value { result ≡ greatest_size x }
    ensures small { unsigned_abs result ≤ 2147483648 }
{
    x.high.max(-x.low)
}

/// What the product with a slope lies between.
fn across(slope: i128, x: Interval) -> Interval
    requires slope { unsigned_abs slope ≤ 21474836480000001 }
    requires far { IsFar x }
    ensures value { result ≡ across slope x }
    ensures small { IsWithin 60000000000000000000000000000 result }
    ensures close { IsWithin 2147483648 x → IsWithin 4611686018427388119 result }
{
    let a = slope_times(slope, x.low);
    let b = slope_times(slope, x.high);
    Interval {
        low: floor_one(a.min(b)),
        high: ceil_one(a.max(b)),
    }
}

/// What is left of an interval, once a slope times another is taken away.
pub fn less(slope: i128, x: Interval, other: Interval) -> Interval
    requires slope { unsigned_abs slope ≤ 21474836480000001 }
    requires x { IsFar x }
    requires other { IsFar other }
    ensures value { result ≡ less slope x other }
    ensures small { IsWithin 70000000000000000000000000000 result }
    ensures close { IsWithin 2147483648 x → IsWithin 2147483648 other → IsWithin 4611686020574871767 result }
{
    let by = across(slope, other);
    Interval {
        low: x.low - by.high,
        high: x.high - by.low,
    }
}
