//! The operands of a statement, one field for each place, in their order.

ghost use Rattle.vcm_fields.specs.Fields.{AreFields};

use crate::branches::BranchSlice;
use crate::field::Field::{
    Assigned, Branches, Direction, Feature, Frame, Items, Nothing, Pair, Part, Quarters, Setting,
    Source, Target, Text, Three, Toward, Turn, Variable,
};
use crate::slices::{ItemSlice, TextSlice};
use vcm_code::{Branch, Op};
use vcm_num::Kind::{Bool, Int, Real};
use vcm_num::{Axis, Kind};
use vcm_spec::{FeatureWord, FrameAxis, Item, Simple};

/// What stands in one place of a statement, or that nothing does. `E` holds postfix items, `T` bytes and `B` branches, as in `Op`.
#[derive(Drop)]
pub enum Field<'a, E, T, B> {
    /// No operand.
    Nothing,
    /// The index of a variable of a kind.
    Variable(Kind, u16),
    /// The index of a feature.
    Feature(u16),
    /// The index of a frame.
    Frame(u16),
    /// The number of a loop's pair: 0 to 31.
    Pair(u8),
    /// The number of a statement that is gone to.
    Target(u32),
    /// An expression of a kind.
    Items(Kind, &'a E),
    /// Three expressions of a kind.
    Three(Kind, &'a E, &'a E, &'a E),
    /// The index of a variable, and an expression of its kind.
    Assigned(u16, &'a E),
    /// The direction of a feature.
    Toward(Axis),
    /// The direction of a measurement, or that it is the nominal feature's.
    Direction(Option<Axis>),
    /// A setting of the probe.
    Setting(vcm_spec::Setting),
    /// Whether the nominal or the actual feature is meant.
    Source(vcm_spec::Source),
    /// The axis of a turn.
    Turn(FrameAxis),
    /// Quarter turns: 0 to 3.
    Quarters(vcm_spec::Quarters),
    /// The number of a feature's word: 3 to 8.
    Part(FeatureWord),
    /// An output line.
    Text(&'a T),
    /// The branches of a SELECT.
    Branches(&'a B),
}

/// A field whose items, texts and branches are slices of the image.
pub type BorrowedField<'r, 'a> = Field<'r, ItemSlice<'a>, TextSlice<'a>, BranchSlice<'a>>;

/// A field of a statement that has its own items, text and branches.
pub type OwnedField<'r> = Field<
    'r,
    vcm_num::Items<Item>,
    vcm_num::Items<u8>,
    vcm_num::Items<Branch>,
>;

/// The operands of a statement, four at the most; where they are fewer, nothing stands behind them.
pub fn fields_of<E, T, B>(op: &Op<E, T, B>) -> [Field<'_, E, T, B>; 4]
    ensures { AreFields result op.now }
{
    match op {
        Op::EndFil | Op::Plain(Simple::GoHome) | Op::EndIf => [Nothing, Nothing, Nothing, Nothing],
        Op::Label | Op::EndMes => [Nothing, Nothing, Nothing, Nothing],
        Op::Case | Op::DftCas | Op::EndSel => [Nothing, Nothing, Nothing, Nothing],
        Op::Plain(Simple::Goto(x, y, z)) => [Three(Real, x, y, z), Nothing, Nothing, Nothing],
        Op::Plain(Simple::Assign(v, e)) => [Assigned(*v, e), Nothing, Nothing, Nothing],
        Op::If(e, to) => [Items(Bool, e), Target(*to), Nothing, Nothing],
        Op::Else(to) | Op::JumpTo(to) | Op::EndCas(to) => [Target(*to), Nothing, Nothing, Nothing],
        Op::Do(v, p, a, b, c, to) => {
            let values = Three(Int, a, b, c);
            [Variable(Int, *v), Pair(*p), values, Target(*to)]
        }
        Op::EndDo(v, p, to) => [Variable(Int, *v), Pair(*p), Target(*to), Nothing],
        Op::Plain(Simple::Feat(f, x, y, z, d)) => [
            Feature(*f),
            Three(Real, x, y, z),
            Toward(*d),
            Nothing,
        ],
        Op::Meas(f) => [Feature(*f), Nothing, Nothing, Nothing],
        Op::Plain(Simple::PtMeas(f, x, y, z, d)) => [
            Feature(*f),
            Three(Real, x, y, z),
            Direction(*d),
            Nothing,
        ],
        Op::Plain(Simple::SnSet(which, e)) => [Setting(*which), Items(Real, e), Nothing, Nothing],
        Op::Plain(Simple::Trans(f, x, y, z)) => [Frame(*f), Three(Real, x, y, z), Nothing, Nothing],
        Op::Plain(Simple::Rotate(f, axis, turns)) => [
            Frame(*f),
            Turn(*axis),
            Quarters(*turns),
            Nothing,
        ],
        Op::Plain(Simple::Recall(f)) => [Frame(*f), Nothing, Nothing, Nothing],
        Op::Plain(Simple::Obtain(v, s, f, n)) => [
            Variable(Real, *v),
            Source(*s),
            Feature(*f),
            Part(*n),
        ],
        Op::Plain(Simple::Output(s, f)) => [Source(*s), Feature(*f), Nothing, Nothing],
        Op::Plain(Simple::Text(text)) => [Text(text), Nothing, Nothing, Nothing],
        Op::Select(e, bs, to) => [Items(Int, e), Branches(bs), Target(*to), Nothing],
    }
}
