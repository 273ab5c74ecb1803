//! Items of a line.

ghost use Rattle.std.specs.Prelude.{◌≡◌, MatchOption, Some, None};
ghost use Rattle.vcm_num.specs.Words.{look_up};
ghost use Rattle.vcm_words.specs.WordReaders.{ending, rows_of};
ghost use Rattle.vcm_words.specs.Items.{operand_in, item_in, item_text, operators};

use crate::numbers::{short, signed, small};
use vcm_num::look_up;
use vcm_spec::{BinaryOp, Item, Operand, Relation, UnaryOp};

// A leaf goes by its first letter.
#[tactic(auto, unfolding(crate::specs::Items::operand_in))]
fn operand(exact: bool, word: &[u8]) -> Option<Operand>
    ensures { result ≡ operand_in exact word.now }
{
    match word {
        [] => None,
        [letter, rest @ ..] => {
            if *letter == b'I' {
                Some(Operand::Integer(signed(exact, rest)?))
            } else if *letter == b'R' {
                Some(Operand::Thousandths(signed(exact, rest)?))
            } else if *letter == b'B' {
                let number = small(exact, 2, rest)?;
                Some(Operand::Truth(number == 1))
            } else if *letter == b'V' {
                Some(Operand::Variable(short(exact, rest)?))
            } else {
                None
            }
        }
    }
}

// An operator goes by its word.
fn operator(word: &[u8]) -> Option<Item>
    ensures { result ≡ look_up (rows_of item_text operators) word.now }
{
    look_up(
        &[
            (b"NEG", Item::Apply(UnaryOp::Neg)),
            (b"SCALE", Item::Apply(UnaryOp::Scale)),
            (b"NOT", Item::Apply(UnaryOp::Not)),
            (b"ADD", Item::Combine(BinaryOp::Add)),
            (b"SUB", Item::Combine(BinaryOp::Sub)),
            (b"MUL", Item::Combine(BinaryOp::Mul)),
            (b"DIV", Item::Combine(BinaryOp::Div)),
            (b"AND", Item::Combine(BinaryOp::And)),
            (b"OR", Item::Combine(BinaryOp::Or)),
            (b"EQ", Item::Combine(BinaryOp::Compare(Relation::Equal))),
            (b"NE", Item::Combine(BinaryOp::Compare(Relation::NotEqual))),
            (b"LT", Item::Combine(BinaryOp::Compare(Relation::Less))),
            (b"LE", Item::Combine(BinaryOp::Compare(Relation::LessEqual))),
            (b"GT", Item::Combine(BinaryOp::Compare(Relation::Greater))),
            (
                b"GE",
                Item::Combine(BinaryOp::Compare(Relation::GreaterEqual)),
            ),
        ],
        word,
    )
}

/// The item that a word is; read exactly, or with the shape of a number for a number.
#[tactic(auto, unfolding(crate::specs::Items::item_in))]
pub(crate) fn item(exact: bool, word: &[u8]) -> Option<Item>
    ensures { result ≡ item_in exact word.now }
{
    if let Some(item) = operator(word) {
        return Some(item);
    }
    Some(Item::Push(operand(exact, word)?))
}

/// What stands before the mark, where the word ends with one.
pub(crate) fn before_end(mark: u8, word: &[u8]) -> Option<&[u8]>
    ensures { MatchOption result (ending mark word.now ≡ None) (λ w. ending mark word.now ≡ Some w.now) }
{
    match word.split_last() {
        Some((last, front)) => { if *last == mark { Some(front) } else { None } }
        None => None,
    }
}
