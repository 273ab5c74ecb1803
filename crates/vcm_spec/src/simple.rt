//! Simple statements, by which control does not go.

use crate::words::{FeatureWord, FrameAxis, Quarters, Setting, Source};
use vcm_num::Axis;

/// What a simple statement does, with expressions of the form `E` and texts of the form `T`. Variables, features and frames go by their indexes, and
/// lengths are in micrometres. The definitions speak of expressions as trees in a program, as postfix items in its code and as whole numbers once they
/// are evaluated.
#[derive(Drop)]
pub enum Simple<E, T> {
    /// `GOTO`: x, y and z of part coordinates.
    Goto(E, E, E),
    /// `GOHOME`.
    GoHome,
    /// `ASSIGN`: a variable, and its new value.
    Assign(u16, E),
    /// `FEAT`: a feature, its nominal point in part coordinates, and its direction out of the material.
    Feat(u16, E, E, E, Axis),
    /// `PTMEAS`: its feature, a point in part coordinates, and a direction; without one it is the nominal feature's.
    PtMeas(u16, E, E, E, Option<Axis>),
    /// `SNSET`: a setting, and its new length.
    SnSet(Setting, E),
    /// `TRANS`: a frame, and the shift of its origin along x, y and z.
    Trans(u16, E, E, E),
    /// `ROTATE`: a frame, an axis of it, and quarter turns.
    Rotate(u16, FrameAxis, Quarters),
    /// `RECALL`: a frame.
    Recall(u16),
    /// `OBTAIN`: a variable, whether the nominal or the actual feature is meant, the feature, and its word.
    Obtain(u16, Source, u16, FeatureWord),
    /// `OUTPUT`: whether the nominal or the actual feature is meant, and the feature.
    Output(Source, u16),
    /// `TEXT`: an output line.
    Text(T),
}
