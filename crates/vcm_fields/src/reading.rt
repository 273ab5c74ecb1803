//! What the operands of a statement are read from, place by place: the bytes of an image, the words of a listing.

ghost use Rattle.std.specs.Prelude.{◌≡◌, true};
ghost use Rattle.vcm_spec.specs.Simple.{with_forms};
ghost use Rattle.vcm_code.specs.declared.op.Op.TheVariants.{Plain};
ghost use Rattle.vcm_code.specs.Copies.{listed};
ghost use Rattle.vcm_fields.specs.Readers.{operands_by, Takes};
ghost use Rattle.vcm_fields.specs.inner.Words.{is_simple};

use vcm_code::{Op, Word};
use vcm_num::Kind::{Bool, Int, Real};
use vcm_num::{Axis, Kind};
use vcm_spec::{FeatureWord, FrameAxis, Quarters, Setting, Simple, Source};

/// Where operands are read from. Each call takes what stands in one place, and leaves what stands behind it.
pub trait Reading {
    ghost use Rattle.std.specs.Prelude.{ℕ, List};
    ghost use Rattle.vcm_spec.specs.declared.expression.Item.{Item};
    ghost use Rattle.vcm_code.specs.declared.branch.Branch.{Branch};
    ghost use Rattle.vcm_fields.specs.Readers.{Format, Takes};
    ghost use Rattle.vcm_code.specs.Shape as place;

    /// An expression, as it lies there.
    type Items: Drop;

    /// A text.
    type Text: Drop;

    /// The branches of a SELECT.
    type Branches: Drop;

    /// Why a place can't be read.
    type Fault: Drop;

    /// What is read, as contracts see it: a list of bytes, of words.
    ghost Left: { Type 0 };

    /// The items of an expression.
    ghost items: { Self.Items → List Item };

    /// The bytes of a text.
    ghost bytes: { Self.Text → List ℕ };

    /// The branches.
    ghost branches: { Self.Branches → List Branch };

    /// What is left.
    ghost left: { Self → Left };

    /// How each place is read.
    ghost at: { Format Left Self.Fault };

    /// The index of a variable of a kind.
    fn variable(&mut self, kind: Kind) -> Result<u16, Self::Fault>
        ensures { Takes (λ n. n) result (left self.new) (at (place.variable kind) (left self.old)) };

    /// The index of a feature.
    fn feature(&mut self) -> Result<u16, Self::Fault>
        ensures { Takes (λ n. n) result (left self.new) (at place.feature (left self.old)) };

    /// The index of a frame.
    fn frame(&mut self) -> Result<u16, Self::Fault>
        ensures { Takes (λ n. n) result (left self.new) (at place.frame (left self.old)) };

    /// The number of a loop's pair.
    fn pair(&mut self) -> Result<u8, Self::Fault>
        ensures { Takes (λ n. n) result (left self.new) (at place.pair (left self.old)) };

    /// The number of a statement.
    fn target(&mut self) -> Result<u32, Self::Fault>
        ensures { Takes (λ n. n) result (left self.new) (at place.target (left self.old)) };

    /// An expression of a kind.
    fn items(&mut self, kind: Kind) -> Result<Self::Items, Self::Fault>
        ensures { Takes items result (left self.new) (at (place.items kind) (left self.old)) };

    /// Three expressions of a kind.
    fn three(&mut self, kind: Kind) -> Result<(Self::Items, Self::Items, Self::Items), Self::Fault>
        ensures { Takes (λ t. (items t.0, (items t.1, items t.2))) result (left self.new) (at (place.three kind) (left self.old)) };

    /// A variable and an expression of its kind.
    fn assigned(&mut self) -> Result<(u16, Self::Items), Self::Fault>
        ensures { Takes (λ o. (o.0, items o.1)) result (left self.new) (at place.assigned (left self.old)) };

    /// The direction of a feature.
    fn axis(&mut self) -> Result<Axis, Self::Fault>
        ensures { Takes (λ d. d) result (left self.new) (at place.axis (left self.old)) };

    /// The direction of a measurement.
    fn direction(&mut self) -> Result<Option<Axis>, Self::Fault>
        ensures { Takes (λ d. d) result (left self.new) (at place.direction (left self.old)) };

    /// A setting of the probe.
    fn setting(&mut self) -> Result<Setting, Self::Fault>
        ensures { Takes (λ s. s) result (left self.new) (at place.setting (left self.old)) };

    /// Whether the nominal or the actual feature is meant.
    fn source(&mut self) -> Result<Source, Self::Fault>
        ensures { Takes (λ s. s) result (left self.new) (at place.source (left self.old)) };

    /// The axis of a turn.
    fn turn(&mut self) -> Result<FrameAxis, Self::Fault>
        ensures { Takes (λ n. n) result (left self.new) (at place.turn (left self.old)) };

    /// Quarter turns.
    fn quarters(&mut self) -> Result<Quarters, Self::Fault>
        ensures { Takes (λ n. n) result (left self.new) (at place.quarters (left self.old)) };

    /// The word of a feature.
    fn part(&mut self) -> Result<FeatureWord, Self::Fault>
        ensures { Takes (λ n. n) result (left self.new) (at place.part (left self.old)) };

    /// An output line.
    fn text(&mut self) -> Result<Self::Text, Self::Fault>
        ensures { Takes bytes result (left self.new) (at place.text (left self.old)) };

    /// The branches of a SELECT.
    fn branches(&mut self) -> Result<Self::Branches, Self::Fault>
        ensures { Takes branches result (left self.new) (at place.branches (left self.old)) };
}

/// What a statement does whose operands are read so.
pub type ReadOp<R> = Op<<R as Reading>::Items, <R as Reading>::Text, <R as Reading>::Branches>;

// The simple statement whose operands are read so.
type ReadSimple<R> = Simple<<R as Reading>::Items, <R as Reading>::Text>;

// The operands behind the word of a simple statement.
#[tactic(auto, unfolding(crate::specs::Readers::operands_by))]
#[inline(always)]
fn simple<R: Reading>(word: Word, from: &mut R) -> Result<ReadSimple<R>, R::Fault>
    requires { is_simple word ≡ true }
    ensures { Takes (λ what. Plain (with_forms R.items R.bytes what)) result (R.left from.new) (operands_by R.at word (R.left from.old)) }
{
    Ok(match word {
        Word::Goto => {
            let (x, y, z) = from.three(Real)?;
            Simple::Goto(x, y, z)
        }
        Word::GoHome => Simple::GoHome,
        Word::Assign => {
            let (variable, value) = from.assigned()?;
            Simple::Assign(variable, value)
        }
        Word::Feat => {
            let feature = from.feature()?;
            let (x, y, z) = from.three(Real)?;
            Simple::Feat(feature, x, y, z, from.axis()?)
        }
        Word::PtMeas => {
            let feature = from.feature()?;
            let (x, y, z) = from.three(Real)?;
            Simple::PtMeas(feature, x, y, z, from.direction()?)
        }
        Word::SnSet => Simple::SnSet(from.setting()?, from.items(Real)?),
        Word::Trans => {
            let frame = from.frame()?;
            let (x, y, z) = from.three(Real)?;
            Simple::Trans(frame, x, y, z)
        }
        Word::Rotate => Simple::Rotate(from.frame()?, from.turn()?, from.quarters()?),
        Word::Recall => Simple::Recall(from.frame()?),
        Word::Obtain => Simple::Obtain(
            from.variable(Real)?,
            from.source()?,
            from.feature()?,
            from.part()?,
        ),
        Word::Output => Simple::Output(from.source()?, from.feature()?),
        Word::Text => Simple::Text(from.text()?),
        _ => unreachable!(),
    })
}

/// The operands behind a word.
///
/// # Errors
///
/// The first fault of a place.
#[tactic(auto, unfolding(crate::specs::Readers::operands_by))]
#[inline(always)]
pub fn operands<R: Reading>(word: Word, from: &mut R) -> Result<ReadOp<R>, R::Fault>
    ensures { Takes (listed R.items R.bytes R.branches) result (R.left from.new) (operands_by R.at word (R.left from.old)) }
{
    Ok(match word {
        Word::EndFil => Op::EndFil,
        Word::If => Op::If(from.items(Bool)?, from.target()?),
        Word::Else => Op::Else(from.target()?),
        Word::EndIf => Op::EndIf,
        Word::Do => {
            let (variable, pair) = (from.variable(Int)?, from.pair()?);
            let (initial, limit, increment) = from.three(Int)?;
            Op::Do(variable, pair, initial, limit, increment, from.target()?)
        }
        Word::EndDo => Op::EndDo(from.variable(Int)?, from.pair()?, from.target()?),
        Word::Label => Op::Label,
        Word::JumpTo => Op::JumpTo(from.target()?),
        Word::Meas => Op::Meas(from.feature()?),
        Word::EndMes => Op::EndMes,
        Word::Select => Op::Select(from.items(Int)?, from.branches()?, from.target()?),
        Word::Case => Op::Case,
        Word::EndCas => Op::EndCas(from.target()?),
        Word::DftCas => Op::DftCas,
        Word::EndSel => Op::EndSel,
        _ => Op::Plain(simple(word, from)?),
    })
}
