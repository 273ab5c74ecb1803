//! Parts of an image that contracts see as what they spell.

ghost use Rattle.std.specs.Prelude.{◌≡◌, ◌∷◌, [], MatchOption};
ghost use Rattle.vcm_fields.specs.Readers.{Gives, times, item_at};

use crate::fault::ImageFault;
use crate::items::{item, known_item};
use std::alloc::Global;
use std::marker::Model;
use vcm_code::{Expression, OutputLine};
use vcm_num::{Items, NoMemory};
use vcm_spec::Item;

/// Postfix items, as bytes of an image.
#[derive(Drop)]
pub struct ItemSlice<'a> {
    count: u16,
    bytes: &'a [u8],
}

impl<'a> Model for ItemSlice<'a> {
    ghost use Rattle.std.specs.Prelude.{List};
    ghost use Rattle.vcm_spec.specs.declared.expression.Item.{Item};

    ghost Value = { List Item };

    ghost use Rattle.vcm_fields.specs.inner.Slices.{items_in, AreItems};

    ghost view = { λ s. items_in s.count s.bytes.now };

    ghost invariant = { λ s. AreItems s.count s.bytes.now };
}

impl<'a> ItemSlice<'a> {
    /// The first so many items, and the bytes behind them.
    #[inline(always)]
    pub(crate) fn cut(count: u16, bytes: &'a [u8]) -> Result<(ItemSlice<'a>, &'a [u8]), ImageFault>
        ensures { Gives (λ x. (x.0, x.1.now)) result (times item_at count bytes.now) }
    {
        let mut rest = bytes;
        for _ in 0..count {
            let (_item, after) = item(rest)?;
            rest = after;
        }
        let length = bytes.len() - rest.len();
        let (front, rest) = bytes.split_at(length);
        Ok((
            ItemSlice {
                count,
                bytes: front,
            },
            rest,
        ))
    }

    /// The same items.
    pub fn again(&self) -> ItemSlice<'a>
        ensures { result ≡ self.now }
    {
        ItemSlice {
            count: self.count,
            bytes: self.bytes,
        }
    }

    /// The first item and those after it, if there is one.
    #[inline(always)]
    pub fn split_first(&self) -> Option<(Item, ItemSlice<'a>)>
        ensures { MatchOption result (self.now ≡ []) (λ x. self.now ≡ x.0 ∷ x.1) }
    {
        if self.count == 0 {
            return None;
        }
        let (first, after) = known_item(self.bytes);
        let others = ItemSlice {
            count: self.count - 1,
            bytes: after,
        };
        Some((first, others))
    }
}

impl<'a> Expression for ItemSlice<'a> {
    ghost items = { λ s. s };

    fn to_items(&self, alloc: Global) -> Result<Items<Item>, NoMemory> {
        let mut copy = Items::new(alloc);
        let mut rest = self.again();
        while let Some((item, after)) = rest.split_first() {
            copy.push(item)?;
            rest = after;
        }
        Ok(copy)
    }
}

/// A text or a name, as bytes of an image.
#[derive(Drop)]
pub struct TextSlice<'a> {
    bytes: &'a [u8],
}

impl<'a> Model for TextSlice<'a> {
    ghost use Rattle.std.specs.Prelude.{List, ℕ};

    ghost Value = { List ℕ };

    ghost view = { λ s. s.bytes.now };
}

impl<'a> TextSlice<'a> {
    /// These bytes.
    pub(crate) fn new(bytes: &'a [u8]) -> TextSlice<'a>
        ensures { result ≡ bytes.now }
    {
        TextSlice { bytes }
    }

    /// The same bytes.
    pub fn again(&self) -> TextSlice<'a>
        ensures { result ≡ self.now }
    {
        TextSlice { bytes: self.bytes }
    }

    /// The bytes, which live as long as the image.
    pub fn as_bytes(&self) -> &'a [u8]
        ensures { result.now ≡ self.now }
    {
        self.bytes
    }
}

impl<'a> OutputLine for TextSlice<'a> {
    ghost bytes = { λ s. s };

    fn to_bytes(&self, alloc: Global) -> Result<Items<u8>, NoMemory> {
        let copy = Items::from_slice(alloc, self.as_bytes())?;
        Ok(copy)
    }
}
