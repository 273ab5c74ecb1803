//! What is reported of a line.

ghost use Rattle.std.specs.Prelude.{◌≡◌};
ghost use Rattle.vcm_untried.specs.About.{place_of, rank, since_of, same};

use vcm_remarks::Cause;

/// What is reported of a line.
#[derive(Clone, Copy)]
pub enum About {
    /// Its motion wasn't tried: for this cause, since this line, or 0 where it has none.
    NotTried(Cause, u32),
    /// Its point was approached and left, and not touched.
    Approached,
    /// Its way begins elsewhere than on the machine.
    BeginsElsewhere,
    /// Its output line wasn't written.
    NotReported,
    /// It selects another sensor: what comes after it is tried with the tip of the part all the same.
    AnotherTip,
    /// It selects a probe that the file of probes hasn't.
    NotInFile,
}

/// The place of a cause.
pub(crate) fn place_of(cause: Cause) -> usize
    ensures { result ≡ place_of cause }
{
    match cause {
        Cause::Table => 0,
        Cause::Mode => 1,
        Cause::Scanning => 2,
        Cause::Unit => 3,
        Cause::Frame => 4,
        Cause::Setting => 5,
        Cause::All => 6,
        Cause::Value => 7,
    }
}

// The place of what is reported.
fn rank(about: About) -> usize
    ensures { result ≡ rank about }
{
    match about {
        About::NotTried(cause, _) => place_of(cause),
        About::Approached => 8,
        About::BeginsElsewhere => 9,
        About::NotReported => 10,
        About::AnotherTip => 11,
        About::NotInFile => 12,
    }
}

/// Since which line it is so.
pub(crate) fn since_of(about: About) -> u32
    ensures { result ≡ since_of about }
{
    match about {
        About::NotTried(_, since) => since,
        About::Approached | About::BeginsElsewhere | About::NotReported => 0,
        About::AnotherTip | About::NotInFile => 0,
    }
}

/// Whether the same is reported.
pub(crate) fn same(one: About, other: About) -> bool
    ensures { result ≡ same one other }
{
    rank(one) == rank(other) && since_of(one) == since_of(other)
}
