//! The dotted words.

ghost use Rattle.std.specs.Prelude.{◌≡◌};
ghost use Rattle.vcm_num.specs.Words.{look_up};
ghost use Rattle.vcm_lines.specs.Dotted.{dotted_words};

use vcm_num::look_up;
use vcm_spec::Relation;

/// What a dotted word says.
#[derive(Clone, Copy)]
pub enum DottedWord {
    Compare(Relation),
    Not,
    And,
    Or,
    Truth(bool),
}

/// What a dotted word says, if it is one that there is.
pub fn dotted_word(bytes: &[u8]) -> Option<DottedWord>
    ensures { result ≡ look_up dotted_words bytes.now }
{
    look_up(
        &[
            (b".EQ.", DottedWord::Compare(Relation::Equal)),
            (b".NE.", DottedWord::Compare(Relation::NotEqual)),
            (b".LT.", DottedWord::Compare(Relation::Less)),
            (b".LE.", DottedWord::Compare(Relation::LessEqual)),
            (b".GT.", DottedWord::Compare(Relation::Greater)),
            (b".GE.", DottedWord::Compare(Relation::GreaterEqual)),
            (b".NOT.", DottedWord::Not),
            (b".AND.", DottedWord::And),
            (b".OR.", DottedWord::Or),
            (b".TRUE.", DottedWord::Truth(true)),
            (b".FALSE.", DottedWord::Truth(false)),
        ],
        bytes,
    )
}
