//! The statements of a listing, whose items, texts and branches are words of their lines. Each is read exactly, or for its shape alone: then
//! whatever has the shape of a number stands for one.
#![tactic(auto)]

ghost use Rattle.std.specs.Prelude.{◌≡◌, option_map};
ghost use Rattle.vcm_fields.specs.Readers.{Takes};
ghost use Rattle.vcm_code.specs.Shape.{assigned};
ghost use Rattle.vcm_words.specs.Operands.{spelling, three_at, operands_at, op_at, line_at};
ghost use Rattle.vcm_words.specs.inner.Refusing.{or_refused};

use crate::braces::{BranchWords, branches};
use crate::kinds::kind;
use crate::places::{
    axis, count, direction, lettered, pair, part, quarters, setting, source, target, text, turn,
};
use crate::slices::{ItemWords, TextWords, expression};
use crate::words::Words;
use vcm_code::{CodeStatement, Op, Version, Word};
use vcm_fields::{Reading, operands};
use vcm_num::{Axis, Kind};
use vcm_spec::{FeatureWord, FrameAxis, Quarters, Setting, Source};

/// What a statement of a listing does.
pub type BorrowedOp<'a> = Op<ItemWords<'a>, TextWords<'a>, BranchWords<'a>>;

/// A statement of a listing.
pub type BorrowedStatement<'a> = CodeStatement<ItemWords<'a>, TextWords<'a>, BranchWords<'a>>;

// Three expressions.
type Triple<'a> = (ItemWords<'a>, ItemWords<'a>, ItemWords<'a>);

#[tactic(auto, unfolding(crate::specs::Operands::three_at))]
fn three<'a>(exact: bool, words: &Words<'a>) -> Option<(Triple<'a>, Words<'a>)>
    ensures { option_map (λ t. ((t.0.0, (t.0.1, t.0.2)), t.1)) result ≡ three_at exact words.now }
{
    let (x, rest) = expression(exact, words)?;
    let (y, rest) = expression(exact, &rest)?;
    let (z, rest) = expression(exact, &rest)?;
    Some(((x, y, z), rest))
}

// A variable and an expression.
fn assigned<'a>(exact: bool, words: &Words<'a>) -> Option<((u16, ItemWords<'a>), Words<'a>)>
    ensures { result ≡ (spelling assigned).at exact words.now }
{
    let (variable, rest) = lettered(exact, b'V', words)?;
    let (value, rest) = expression(exact, &rest)?;
    Some(((variable, value), rest))
}

// The words that are left to read, exactly or for their shapes.
#[derive(Drop)]
struct WordReader<'a> {
    exact: bool,
    words: Words<'a>,
}

impl<'a> WordReader<'a> {
    // What was read of them, which leaves what stands behind it.
    fn took<T>(&mut self, read: Option<(T, Words<'a>)>) -> Result<T, ()>
        ensures { Takes (λ x. x) result (self.new.exact, self.new.words) (or_refused self.old.exact read.entry) }
    {
        let (value, rest) = read.ok_or(())?;
        self.words = rest;
        Ok(value)
    }
}

impl<'a> Reading for WordReader<'a> {
    ghost use Rattle.vcm_words.specs.inner.Refusing.{LeftWords, place_in};

    type Items = ItemWords<'a>;

    type Text = TextWords<'a>;

    type Branches = BranchWords<'a>;

    type Fault = ();

    ghost Left = { LeftWords };

    ghost items = { λ e. e };

    ghost bytes = { λ t. t };

    ghost branches = { λ b. b };

    ghost left = { λ r. (r.exact, r.words) };

    ghost at = { place_in };

    fn variable(&mut self, _: Kind) -> Result<u16, ()> {
        let read = lettered(self.exact, b'V', &self.words);
        self.took(read)
    }

    fn feature(&mut self) -> Result<u16, ()> {
        let read = lettered(self.exact, b'F', &self.words);
        self.took(read)
    }

    fn frame(&mut self) -> Result<u16, ()> {
        let read = lettered(self.exact, b'D', &self.words);
        self.took(read)
    }

    fn pair(&mut self) -> Result<u8, ()> {
        let read = pair(self.exact, &self.words);
        self.took(read)
    }

    fn target(&mut self) -> Result<u32, ()> {
        let read = target(self.exact, &self.words);
        self.took(read)
    }

    fn items(&mut self, _: Kind) -> Result<ItemWords<'a>, ()> {
        let read = expression(self.exact, &self.words);
        self.took(read)
    }

    fn three(&mut self, _: Kind) -> Result<Triple<'a>, ()> {
        let (values, rest) = three(self.exact, &self.words).ok_or(())?;
        self.words = rest;
        Ok(values)
    }

    fn assigned(&mut self) -> Result<(u16, ItemWords<'a>), ()> {
        let read = assigned(self.exact, &self.words);
        self.took(read)
    }

    fn axis(&mut self) -> Result<Axis, ()> {
        let read = axis(&self.words);
        self.took(read)
    }

    fn direction(&mut self) -> Result<Option<Axis>, ()> {
        let read = direction(&self.words);
        self.took(read)
    }

    fn setting(&mut self) -> Result<Setting, ()> {
        let read = setting(&self.words);
        self.took(read)
    }

    fn source(&mut self) -> Result<Source, ()> {
        let read = source(&self.words);
        self.took(read)
    }

    fn turn(&mut self) -> Result<FrameAxis, ()> {
        let read = turn(&self.words);
        self.took(read)
    }

    fn quarters(&mut self) -> Result<Quarters, ()> {
        let read = quarters(self.exact, &self.words);
        self.took(read)
    }

    fn part(&mut self) -> Result<FeatureWord, ()> {
        let read = part(self.exact, &self.words);
        self.took(read)
    }

    fn text(&mut self) -> Result<TextWords<'a>, ()> {
        let read = text(self.exact, &self.words);
        self.took(read)
    }

    fn branches(&mut self) -> Result<BranchWords<'a>, ()> {
        let read = branches(self.exact, &self.words);
        self.took(read)
    }
}

// The operands behind a word.
fn operands_of<'a>(
    exact: bool,
    word: Word,
    words: &Words<'a>,
) -> Option<(BorrowedOp<'a>, Words<'a>)>
    ensures { result ≡ operands_at exact word words.now }
{
    let mut from = WordReader {
        exact,
        words: words.again(),
    };
    match operands(word, &mut from) {
        Ok(op) => Some((op, from.words)),
        Err(()) => None,
    }
}

// The word of a statement of a version and its operands.
#[tactic(auto, unfolding(crate::specs::Operands::op_at))]
fn op<'a>(version: Version, exact: bool, words: &Words<'a>) -> Option<(BorrowedOp<'a>, Words<'a>)>
    ensures { result ≡ op_at version exact words.now }
{
    let (word, rest) = kind(version, words)?;
    operands_of(exact, word, &rest)
}

/// A statement of a version behind its number: its source line, its word and its operands; and the words behind it.
#[tactic(auto, unfolding(crate::specs::Operands::line_at))]
pub(crate) fn line<'a>(
    version: Version,
    exact: bool,
    words: &Words<'a>,
) -> Option<(BorrowedStatement<'a>, Words<'a>)>
    ensures { result ≡ line_at version exact words.now }
{
    let (line, rest) = count(exact, words)?;
    let (op, rest) = op(version, exact, &rest)?;
    Some((CodeStatement { line, op }, rest))
}
