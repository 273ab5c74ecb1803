//! The classes of statements.

/// The class of a statement.
#[derive(Clone, Copy)]
pub enum Class {
    /// The readers of the subset take it, and it is tried.
    Fits,
    /// The readers take it, and it has no effect.
    Notice,
    /// It moves nothing and chooses nothing.
    LeftOut,
    /// Another statement stands for it, or a comment does.
    PutOtherwise,
    /// What the machine does there stays unknown.
    NotTried,
    /// The readers refuse it, and no rule takes it.
    Fault,
}

impl Class {
    ghost use Rattle.std.specs.Prelude.{◌≡◌};
    ghost use Rattle.vcm_classes.specs.Rows.{same_class};

    /// Whether it is this one.
    pub fn is(self, other: Class) -> bool
        ensures { result ≡ same_class self other }
    {
        match self {
            Class::Fits => matches!(other, Class::Fits),
            Class::Notice => matches!(other, Class::Notice),
            Class::LeftOut => matches!(other, Class::LeftOut),
            Class::PutOtherwise => matches!(other, Class::PutOtherwise),
            Class::NotTried => matches!(other, Class::NotTried),
            Class::Fault => matches!(other, Class::Fault),
        }
    }
}
