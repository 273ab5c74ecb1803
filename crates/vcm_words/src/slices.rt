//! Parts of a line that contracts see as what they spell.

ghost use Rattle.std.specs.Prelude.{◌≡◌, ◌<◌, ◌∷◌, [], MatchOption, IfSome, IfNone, Some, None};
ghost use Rattle.vcm_words.specs.Enclosed.{up_to};
ghost use Rattle.vcm_words.specs.Items.{item_in, expression_at};
ghost use Rattle.vcm_words.specs.inner.Slices.{Found};
ghost use Rattle.vcm_words.specs.inner.Counting.{Next};

use crate::items::{before_end, item};
use crate::words::Words;
use std::alloc::Global;
use std::marker::Model;
use vcm_code::{Expression, OutputLine};
use vcm_num::{Items, NoMemory};
use vcm_spec::Item;

/// The items of an expression, as words of a line. Contracts see them as a list.
#[derive(Drop)]
pub struct ItemWords<'a> {
    exact: bool,
    passed: bool,
    words: Words<'a>,
}

impl<'a> Model for ItemWords<'a> {
    ghost use Rattle.std.specs.Prelude.{List};
    ghost use Rattle.vcm_spec.specs.declared.expression.Item.{Item};
    ghost use Rattle.vcm_words.specs.Items.{item_in};
    ghost use Rattle.vcm_words.specs.inner.Slices.{values_left, AreLeft};

    ghost Value = { List Item };

    ghost view = { λ s. values_left 93 (item_in s.exact) s.passed s.words };

    ghost invariant = { λ s. AreLeft 93 (item_in s.exact) s.passed s.words };
}

impl<'a> ItemWords<'a> {
    /// The same items.
    pub fn again(&self) -> ItemWords<'a>
        ensures { result ≡ self.now }
    {
        ItemWords {
            exact: self.exact,
            passed: self.passed,
            words: self.words.again(),
        }
    }

    /// The first item and those after it, if there is one.
    pub fn split_first(&self) -> Option<(Item, ItemWords<'a>)>
        ensures { MatchOption result (self.now ≡ []) (λ x. self.now ≡ x.0 ∷ x.1) }
    {
        if self.passed {
            return None;
        }
        match self.words.split_first() {
            Some((word, words)) => match before_end(b']', word) {
                Some(last) => match item(self.exact, last) {
                    Some(item) => Some((
                        item,
                        ItemWords {
                            exact: self.exact,
                            passed: true,
                            words,
                        },
                    )),
                    None => unreachable!(),
                },
                None => match item(self.exact, word) {
                    Some(item) => Some((
                        item,
                        ItemWords {
                            exact: self.exact,
                            passed: false,
                            words,
                        },
                    )),
                    None => unreachable!(),
                },
            },
            None => unreachable!(),
        }
    }
}

impl<'a> Expression for ItemWords<'a> {
    ghost items = { λ s. s };

    fn to_items(&self, alloc: Global) -> Result<Items<Item>, NoMemory> {
        let mut copy = Items::new(alloc);
        let mut rest = self.again();
        while let Some((item, after)) = rest.split_first() {
            copy.push(item)?;
            rest = after;
        }
        Ok(copy)
    }
}

/// The most items of an expression.
const LONGEST: u16 = vcm_num::MOST_ITEMS as u16;

/// One more, up to one more than the most, which stands for all that is more.
pub(crate) fn one_more(most: u16, count: u16) -> u16
    requires { most < 65535 }
    ensures { Next most count result }
{
    if count <= most { count + 1 } else { count }
}

// How many items there are up to the closing bracket, and the words behind it.
fn items_end<'a>(exact: bool, words: &Words<'a>) -> Option<(u16, Words<'a>)>
    ensures some { IfSome result (λ x. Found 93 (item_in exact) 1024 words.now x.0 x.1) }
    ensures none { IfNone result (up_to 93 (item_in exact) words.now ≡ None) }
{
    let mut rest = words.again();
    let mut count: u16 = 0;
    while let Some((word, more)) = rest.split_first() {
        count = one_more(LONGEST, count);
        match before_end(b']', word) {
            Some(last) => {
                item(exact, last)?;
                return Some((count, more));
            }
            None => {
                item(exact, word)?;
            }
        }
        rest = more;
    }
    None
}

/// An expression, 1 to 1,024 items between brackets, and the words behind it; read exactly, or with the shape of a number for a number and any count of
/// items.
#[tactic(auto, unfolding(crate::specs::Items::expression_at, crate::specs::Enclosed::between))]
pub fn expression<'a>(exact: bool, words: &Words<'a>) -> Option<(ItemWords<'a>, Words<'a>)>
    ensures { result ≡ expression_at exact words.now }
{
    let inside = words.unopened(b'[')?;
    let (count, rest) = items_end(exact, &inside)?;
    if exact && count > LONGEST {
        return None;
    }
    Some((
        ItemWords {
            exact,
            passed: false,
            words: inside,
        },
        rest,
    ))
}

/// A text, as bytes of a line. Contracts see it as the list of its bytes.
#[derive(Drop)]
pub struct TextWords<'a> {
    bytes: &'a [u8],
}

impl<'a> Model for TextWords<'a> {
    ghost use Rattle.std.specs.Prelude.{List, ℕ};

    ghost Value = { List ℕ };

    ghost view = { λ s. s.bytes.now };
}

impl<'a> TextWords<'a> {
    /// These bytes.
    pub(crate) fn new(bytes: &'a [u8]) -> TextWords<'a>
        ensures { result ≡ bytes.now }
    {
        TextWords { bytes }
    }

    /// The bytes, which live as long as the line.
    pub fn as_bytes(&self) -> &'a [u8]
        ensures { result.now ≡ self.now }
    {
        self.bytes
    }
}

impl<'a> OutputLine for TextWords<'a> {
    ghost bytes = { λ s. s };

    fn to_bytes(&self, alloc: Global) -> Result<Items<u8>, NoMemory> {
        let copy = Items::from_slice(alloc, self.as_bytes())?;
        Ok(copy)
    }
}
