//! Fractions and stretches of a straight way.

ghost use Rattle.std.specs.Prelude.{◌≡◌, ◌<◌, ◌≤◌, ◌*◌, ◌↔◌, ℕ, IsTrue};
ghost use Rattle.vcm_spec.specs.Contact.{IsPermille};

/// A fraction of a way.
#[derive(Clone, Copy)]
pub struct Fraction {
    pub num: u32,
    pub den: u32,
    ghost positive: { 0 < den },
}

impl Fraction {
    ghost use Rattle.vcm_carried.specs.inner.Shared.{IsUpTo, IsFrom};

    /// The start of a way.
    pub fn start() -> Fraction
        ensures { result.num ≡ 0 }
    {
        Fraction { num: 0, den: 1 }
    }

    /// The whole way.
    pub fn whole() -> Fraction
        ensures num { result.num ≡ 1 }
        ensures den { result.den ≡ 1 }
    {
        Fraction { num: 1, den: 1 }
    }

    /// Whether this fraction is below the other. The products of two `u32` fit a `u64`.
    pub(crate) fn is_before(self, other: Fraction) -> bool
        ensures { IsTrue result ↔ (self.num * other.den < other.num * self.den) }
    {
        u64::from(self.num) * u64::from(other.den) < u64::from(other.num) * u64::from(self.den)
    }

    /// The later of two fractions: what is not before it, is before neither.
    pub(crate) fn later(self, other: Fraction) -> Fraction
        ensures { (a b : ℕ) → IsUpTo result a b ↔ (IsUpTo self a b × IsUpTo other a b) }
    {
        if self.is_before(other) { other } else { self }
    }

    /// The earlier of two fractions: what is not after it, is after neither.
    pub(crate) fn earlier(self, other: Fraction) -> Fraction
        ensures { (a b : ℕ) → IsFrom result a b ↔ (IsFrom self a b × IsFrom other a b) }
    {
        if other.is_before(self) { other } else { self }
    }

    /// How many whole thousandths of the way lie before this fraction.
    pub(crate) fn permille(self) -> u32
        requires { self.num ≤ self.den }
        ensures { IsPermille self.num self.den result }
    {
        (1000 * u64::from(self.num) / u64::from(self.den)) as u32
    }
}

/// A stretch of a way, with both its ends; where it leaves before it enters, it is empty.
#[derive(Clone, Copy)]
pub(crate) struct Stretch {
    pub(crate) enter: Fraction,
    pub(crate) leave: Fraction,
}

impl Stretch {
    ghost use Rattle.vcm_carried.specs.inner.Shared.{IsCommon};

    /// The whole way.
    pub(crate) fn whole() -> Stretch
        ensures enter { result.enter.num ≡ 0 }
        ensures leave { result.leave.num ≡ result.leave.den }
    {
        Stretch {
            enter: Fraction::start(),
            leave: Fraction::whole(),
        }
    }

    /// What two stretches have in common.
    pub(crate) fn common(self, other: Stretch) -> Stretch
        ensures { IsCommon self other result }
    {
        Stretch {
            enter: self.enter.later(other.enter),
            leave: self.leave.earlier(other.leave),
        }
    }
}
