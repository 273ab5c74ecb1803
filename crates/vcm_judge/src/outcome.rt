//! How programs fared.

ghost use Rattle.std.specs.Prelude.{◌≡◌};
ghost use Rattle.vcm_judge.specs.Counting.{status};

/// How a program fared.
#[derive(Clone, Copy, PartialEq, Eq)]
pub enum Outcome {
    /// Its run came to the program's end.
    Ended,
    /// It did so, and something of it wasn't tried.
    NotAllTried,
    /// Its run came to another stop, or a box of the probe meets a block.
    Stopped,
    /// Its run didn't stop after the steps that were asked for.
    OutOfSteps,
    /// It was refused, or its workpiece or probe was, or it has no workpiece.
    Refused,
    /// Memory was refused.
    NoMemory,
    /// A file couldn't be read, or is too long.
    Device,
}

impl Outcome {
    /// The exit status that vcm has of such a program alone.
    pub fn status(self) -> u8
        ensures { result ≡ status self }
    {
        match self {
            Outcome::Ended => 0,
            Outcome::NotAllTried => 7,
            Outcome::Stopped => 3,
            Outcome::OutOfSteps => 4,
            Outcome::Refused => 1,
            Outcome::NoMemory => 5,
            Outcome::Device => 6,
        }
    }
}
