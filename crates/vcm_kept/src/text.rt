//! What holds of a whole text.

/// What holds of a whole text.
#[derive(Clone, Copy)]
pub struct Text {
    /// It has labels or jumps.
    pub jumps: bool,
    /// The machine's frame has a name of its own.
    pub machine: bool,
    /// It has places that are kept for later, or steps from the probe's place.
    pub spots: bool,
    /// It has a FROM.
    pub from: bool,
    /// It has steps from the probe's place.
    pub steps: bool,
    /// It has points that are approached and left.
    pub slants: bool,
    /// Some of them are along the directions of their features.
    pub pointed: bool,
    /// The way back of one of its points may not be known.
    pub halts: bool,
    /// It has polar places, or angles in another unit than decimal degrees.
    pub polar: bool,
    /// It has datums, or frames by them.
    pub datums: bool,
    /// It keeps frames elsewhere.
    pub saving: bool,
    /// One of its CASEs has several values.
    pub several: bool,
    /// It has values that may be cut off.
    pub cut: bool,
}
