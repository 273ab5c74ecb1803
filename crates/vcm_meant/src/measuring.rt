//! What is remarked of a measurement whose feature was declared.

ghost use Rattle.std.specs.Prelude.{◌≡◌, ◌≤◌, ◌+◌, ◌*◌, ◌^◌, pos, IfSome, OnOk};
ghost use Rattle.std.specs.List.{list_any};
ghost use Rattle.vcm_meant.specs.Measuring.{aim_of, squares, square_between, far_if, far_from, turned_from, again_if, kind, is_alike, added};

use crate::remark::{Remark, What};
use vcm_frame::Frame;
use vcm_num::{NoMemory, Point};
use vcm_spec::Feature;
use vcm_trace::{apart, is_same_axis, root_down, within_bits};
use vcm_way::Task;

/// The place of a measurement in the part, which it was given in the current frame.
pub(crate) fn aim_of(task: Task, frame: Frame) -> Option<Point>
    ensures { result ≡ aim_of task frame }
{
    match task {
        Task::Measure(measuring) => match frame.invert(measuring.nominal) {
            Ok(at) => Some(at),
            Err(_) => None,
        },
        _ => None,
    }
}

// The sum of the squares of three lengths.
fn sum(x: u64, y: u64, z: u64) -> u128
    requires x { x ≤ 2 ^ 63 }
    requires y { y ≤ 2 ^ 63 }
    requires z { z ≤ 2 ^ 63 }
    ensures { result ≡ x * x + y * y + z * z }
{
    u128::from(x) * u128::from(x) + u128::from(y) * u128::from(y) + u128::from(z) * u128::from(z)
}

// The same, if all have 64 bits.
fn squares(x: Option<u64>, y: Option<u64>, z: Option<u64>) -> Option<u128>
    requires x { IfSome x (λ n. n ≤ 2 ^ 63) }
    requires y { IfSome y (λ n. n ≤ 2 ^ 63) }
    requires z { IfSome z (λ n. n ≤ 2 ^ 63) }
    ensures { result ≡ squares x y z }
{
    match x {
        Some(x) => match y {
            Some(y) => match z {
                Some(z) => Some(sum(x, y, z)),
                None => None,
            },
            None => None,
        },
        None => None,
    }
}

// The square of how far two places are from each other.
fn square_between(p: Point, q: Point) -> Option<u128>
    ensures { result ≡ square_between p q }
{
    squares(apart(p, q, 0), apart(p, q, 1), apart(p, q, 2))
}

// A measurement so far from the FEAT of a line, by the square of that, if it is farther than the approach distance.
fn far_if(
    line: u32,
    feature: u16,
    declared: u32,
    approach: u32,
    square: Option<u128>,
) -> Option<Remark>
    ensures { result ≡ far_if line feature declared approach square }
{
    let far = match square {
        Some(square) => if u128::from(approach) * u128::from(approach) < square {
            within_bits(root_down(square))
        } else {
            return None;
        },
        None => None,
    };
    Some(Remark {
        line,
        what: What::Far {
            feature,
            declared,
            far,
            approach,
        },
    })
}

/// The same of a measurement at a place, of a feature that was declared so in the current frame.
pub(crate) fn far_from(
    line: u32,
    feature: u16,
    declared: u32,
    approach: u32,
    nominal: Option<Feature>,
    aim: Option<Point>,
) -> Option<Remark>
    ensures { result ≡ far_from line feature declared approach nominal aim }
{
    match nominal {
        Some(nominal) => match aim {
            Some(at) => far_if(
                line,
                feature,
                declared,
                approach,
                square_between(nominal.at, at),
            ),
            None => None,
        },
        None => None,
    }
}

// A measurement along a direction, of a feature that was declared so.
fn turned_if(
    line: u32,
    feature: u16,
    declared: u32,
    nominal: Feature,
    actual: Feature,
) -> Option<Remark>
    ensures { result ≡ turned_from line feature declared (Some nominal) (Some actual) }
{
    if is_same_axis(actual.toward, nominal.toward) {
        None
    } else {
        Some(Remark {
            line,
            what: What::Turned {
                feature,
                along: actual.toward,
                declared,
                has: nominal.toward,
            },
        })
    }
}

/// A measurement along another direction than that of the FEAT of a line, of a feature that was declared so in the current frame.
pub(crate) fn turned_from(
    line: u32,
    feature: u16,
    declared: u32,
    nominal: Option<Feature>,
    actual: Option<Feature>,
) -> Option<Remark>
    ensures { result ≡ turned_from line feature declared nominal actual }
{
    match nominal {
        Some(nominal) => match actual {
            Some(actual) => turned_if(line, feature, declared, nominal, actual),
            None => None,
        },
        None => None,
    }
}

/// A measurement that isn't the first one since the FEAT of a line.
pub(crate) fn again_if(line: u32, declared: u32, is_measured: bool) -> Option<Remark>
    ensures { result ≡ again_if line declared is_measured }
{
    if is_measured {
        Some(Remark {
            line,
            what: What::Again { declared },
        })
    } else {
        None
    }
}

// What a remark is of.
fn kind(what: What) -> u8
    ensures { result ≡ kind what }
{
    match what {
        What::Far { .. } => 0,
        What::Turned { .. } => 1,
        What::Again { .. } => 2,
        What::Never { .. } => 3,
        What::NoRound => 4,
    }
}

// Whether two remarks are of one kind and of one line.
fn is_alike(one: &Remark, other: &Remark) -> bool
    ensures { result ≡ is_alike one.now other.now }
{
    one.line == other.line && kind(one.what) == kind(other.what)
}

// Whether there is a remark of this kind and line.
fn has_alike(remarks: &[Remark], remark: &Remark) -> bool
    ensures { result ≡ list_any (is_alike remark.now) remarks.now }
{
    remarks.iter().any(|other| is_alike(remark, other))
}

/// One remark more, if there is none of its kind and its line.
///
/// Errors: want of memory.
pub(crate) fn add(remarks: &mut Vec<Remark>, remark: Option<Remark>) -> Result<(), NoMemory>
    ensures { OnOk result (remarks.new.items ≡ added remark remarks.old.items) }
{
    match remark {
        Some(remark) => {
            if !has_alike(remarks.as_slice(), &remark) {
                remarks.push(remark)?;
            }
            Ok(())
        }
        None => Ok(()),
    }
}
