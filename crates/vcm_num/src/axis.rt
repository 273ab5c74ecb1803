//! The six directions of the axes.

ghost use Rattle.std.specs.Prelude.{◌≡◌, ◌<◌};
ghost use Rattle.vcm_num.specs.Axis.{axis_of, is_forward, opposite, unit};

/// A direction along an axis.
#[derive(Clone, Copy, PartialEq, Eq)]
pub enum Axis {
    PlusX,
    MinusX,
    PlusY,
    MinusY,
    PlusZ,
    MinusZ,
}

impl Axis {
    /// Its axis: 0 for x, 1 for y, 2 for z.
    pub fn index(self) -> usize
        ensures axis { result ≡ axis_of self }
        ensures below { result < 3 }
    {
        match self {
            Axis::PlusX | Axis::MinusX => 0,
            Axis::PlusY | Axis::MinusY => 1,
            Axis::PlusZ | Axis::MinusZ => 2,
        }
    }

    /// Whether its coordinate rises.
    pub fn is_forward(self) -> bool
        ensures { result ≡ is_forward self }
    {
        match self {
            Axis::PlusX | Axis::PlusY | Axis::PlusZ => true,
            Axis::MinusX | Axis::MinusY | Axis::MinusZ => false,
        }
    }

    /// A coordinate of its unit vector: 0 for x, 1 for y, 2 for z.
    pub fn component(self, axis: usize) -> i64
        ensures { result ≡ unit self axis }
    {
        if axis == self.index() {
            if self.is_forward() { 1 } else { -1 }
        } else {
            0
        }
    }

    /// The direction back.
    pub fn opposite(self) -> Axis
        ensures { result ≡ opposite self }
    {
        match self {
            Axis::PlusX => Axis::MinusX,
            Axis::MinusX => Axis::PlusX,
            Axis::PlusY => Axis::MinusY,
            Axis::MinusY => Axis::PlusY,
            Axis::PlusZ => Axis::MinusZ,
            Axis::MinusZ => Axis::PlusZ,
        }
    }
}
