//! Statements, whose items, texts and branches are slices of the image.

ghost use Rattle.std.specs.Prelude.{ℕ, List, Result};
ghost use Rattle.vcm_fields.specs.declared.fault.ImageFault.{ImageFault};
ghost use Rattle.vcm_fields.specs.Readers.{Gives, Takes, expression_at, branches_at, pair_at, three_at, place_at, line_at};
ghost use Rattle.vcm_code.specs.Shape.{assigned};

use crate::branches::BranchSlice;
use crate::fault::ImageFault;
use crate::fields::{byte_below, long, short};
use crate::reading::{Reading, operands};
use crate::slices::{ItemSlice, TextSlice};
use crate::tags::{axis, direction, part, quarters, setting, source, turn, word};
use crate::texts::text;
use std::marker::Model;
use vcm_code::{CodeStatement, Op, Version};
use vcm_num::{Axis, Kind};
use vcm_spec::{FeatureWord, FrameAxis, Quarters, Setting, Source};

/// What a statement of an image does.
pub type BorrowedOp<'a> = Op<ItemSlice<'a>, TextSlice<'a>, BranchSlice<'a>>;

/// A statement of an image.
pub type BorrowedStatement<'a> = CodeStatement<ItemSlice<'a>, TextSlice<'a>, BranchSlice<'a>>;

/// The most items of an expression.
const LONGEST: u16 = vcm_num::MOST_ITEMS as u16;

/// The most branches of a SELECT.
const MOST_BRANCHES: u16 = vcm_num::MOST_BRANCHES as u16;

// An expression: the number of its items, and the items.
#[tactic(auto, unfolding(crate::specs::Readers::expression_at))]
#[inline(always)]
fn expression(bytes: &[u8]) -> Result<(ItemSlice<'_>, &[u8]), ImageFault>
    ensures { Gives (λ x. (x.0, x.1.now)) result (expression_at bytes.now) }
{
    let (count, rest) = short(bytes)?;
    if count < 1 || count > LONGEST {
        return Err(ImageFault::BadField);
    }
    ItemSlice::cut(count, rest)
}

// Three expressions.
type Triple<'a> = (ItemSlice<'a>, ItemSlice<'a>, ItemSlice<'a>);

#[tactic(auto, unfolding(crate::specs::Readers::three_at))]
fn three(bytes: &[u8]) -> Result<(Triple<'_>, &[u8]), ImageFault>
    ensures { Gives (λ t. ((t.0.0, (t.0.1, t.0.2)), t.1.now)) result (three_at bytes.now) }
{
    let (x, rest) = expression(bytes)?;
    let (y, rest) = expression(rest)?;
    let (z, rest) = expression(rest)?;
    Ok(((x, y, z), rest))
}

// A variable and an expression.
fn assigned(bytes: &[u8]) -> Result<((u16, ItemSlice<'_>), &[u8]), ImageFault>
    ensures { Gives (λ x. (x.0, x.1.now)) result (place_at assigned bytes.now) }
{
    let (variable, rest) = short(bytes)?;
    let (value, rest) = expression(rest)?;
    Ok(((variable, value), rest))
}

/// The number of a loop's pair: 0 to 31.
///
/// # Errors
///
/// Short; BadField where it is above 31.
#[inline(always)]
pub fn pair(bytes: &[u8]) -> Result<(u8, &[u8]), ImageFault>
    ensures { Gives (λ x. (x.0, x.1.now)) result (pair_at bytes.now) }
{
    byte_below(32, bytes)
}

/// Branches: how many they are, and each of them.
///
/// # Errors
///
/// Short; BadField where they are more than 20,000.
#[tactic(auto, unfolding(crate::specs::Readers::branches_at))]
#[inline(always)]
pub(crate) fn branches(bytes: &[u8]) -> Result<(BranchSlice<'_>, &[u8]), ImageFault>
    ensures { Gives (λ x. (x.0, x.1.now)) result (branches_at bytes.now) }
{
    let (count, rest) = short(bytes)?;
    if count > MOST_BRANCHES {
        return Err(ImageFault::BadField);
    }
    BranchSlice::cut(count, rest)
}

// The bytes that are left to read. Contracts see them as a list.
#[derive(Drop)]
struct ByteReader<'a> {
    left: &'a [u8],
}

impl<'a> Model for ByteReader<'a> {
    ghost use Rattle.std.specs.Prelude.{List, ℕ};

    ghost Value = { List ℕ };

    ghost view = { λ r. r.left.now };
}

impl<'a> ByteReader<'a> {
    // What was read of them, which leaves what stands behind it.
    #[inline(always)]
    fn took<T>(&mut self, read: Result<(T, &'a [u8]), ImageFault>) -> Result<T, ImageFault>
        ensures { (now : Result (T × List ℕ) ImageFault) → Gives (λ x. (x.0, x.1.now)) read.entry now → Takes (λ x. x) result self.new now }
    {
        let (value, rest) = read?;
        self.left = rest;
        Ok(value)
    }
}

impl<'a> Reading for ByteReader<'a> {
    ghost use Rattle.std.specs.Prelude.{List, ℕ};
    ghost use Rattle.vcm_fields.specs.Readers.{place_at};

    type Items = ItemSlice<'a>;

    type Text = TextSlice<'a>;

    type Branches = BranchSlice<'a>;

    type Fault = ImageFault;

    ghost Left = { List ℕ };

    ghost items = { λ e. e };

    ghost bytes = { λ t. t };

    ghost branches = { λ b. b };

    ghost left = { λ r. r };

    ghost at = { place_at };

    #[inline(always)]
    fn variable(&mut self, _: Kind) -> Result<u16, ImageFault> {
        self.took(short(self.left))
    }

    #[inline(always)]
    fn feature(&mut self) -> Result<u16, ImageFault> {
        self.took(short(self.left))
    }

    #[inline(always)]
    fn frame(&mut self) -> Result<u16, ImageFault> {
        self.took(short(self.left))
    }

    #[inline(always)]
    fn pair(&mut self) -> Result<u8, ImageFault> {
        self.took(pair(self.left))
    }

    #[inline(always)]
    fn target(&mut self) -> Result<u32, ImageFault> {
        self.took(long(self.left))
    }

    #[inline(always)]
    fn items(&mut self, _: Kind) -> Result<ItemSlice<'a>, ImageFault> {
        self.took(expression(self.left))
    }

    #[inline(always)]
    fn three(&mut self, _: Kind) -> Result<Triple<'a>, ImageFault> {
        let (values, rest) = three(self.left)?;
        self.left = rest;
        Ok(values)
    }

    #[inline(always)]
    fn assigned(&mut self) -> Result<(u16, ItemSlice<'a>), ImageFault> {
        let (value, rest) = assigned(self.left)?;
        self.left = rest;
        Ok(value)
    }

    #[inline(always)]
    fn axis(&mut self) -> Result<Axis, ImageFault> {
        self.took(axis(self.left))
    }

    #[inline(always)]
    fn direction(&mut self) -> Result<Option<Axis>, ImageFault> {
        self.took(direction(self.left))
    }

    #[inline(always)]
    fn setting(&mut self) -> Result<Setting, ImageFault> {
        self.took(setting(self.left))
    }

    #[inline(always)]
    fn source(&mut self) -> Result<Source, ImageFault> {
        self.took(source(self.left))
    }

    #[inline(always)]
    fn turn(&mut self) -> Result<FrameAxis, ImageFault> {
        self.took(turn(self.left))
    }

    #[inline(always)]
    fn quarters(&mut self) -> Result<Quarters, ImageFault> {
        self.took(quarters(self.left))
    }

    #[inline(always)]
    fn part(&mut self) -> Result<FeatureWord, ImageFault> {
        self.took(part(self.left))
    }

    #[inline(always)]
    fn text(&mut self) -> Result<TextSlice<'a>, ImageFault> {
        self.took(text(self.left))
    }

    #[inline(always)]
    fn branches(&mut self) -> Result<BranchSlice<'a>, ImageFault> {
        self.took(branches(self.left))
    }
}

/// A statement of a version, and the bytes behind it.
///
/// # Errors
///
/// Short; BadField where a field is out of its range.
#[tactic(auto, unfolding(crate::specs::Readers::line_at))]
#[inline(always)]
pub fn statement(
    version: Version,
    bytes: &[u8],
) -> Result<(BorrowedStatement<'_>, &[u8]), ImageFault>
    ensures { Gives (λ x. (x.0, x.1.now)) result (line_at version bytes.now) }
{
    let (word, rest) = word(version, bytes)?;
    let (line, rest) = long(rest)?;
    let mut from = ByteReader { left: rest };
    let op = operands(word, &mut from)?;
    Ok((CodeStatement { line, op }, from.left))
}
