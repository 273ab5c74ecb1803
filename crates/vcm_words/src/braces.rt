//! Branches of a SELECT, which contracts see as what they spell.

ghost use Rattle.std.specs.Prelude.{◌≡◌, ◌∷◌, [], MatchOption, IfSome, IfNone, None};
ghost use Rattle.vcm_words.specs.Enclosed.{up_to};
ghost use Rattle.vcm_words.specs.Branches.{branch_in, none_at, braced_at, branches_at};
ghost use Rattle.vcm_words.specs.inner.Slices.{Found};

use crate::items::before_end;
use crate::numbers::{long, signed};
use crate::slices::one_more;
use crate::words::{Words, cut};
use std::alloc::Global;
use std::marker::Model;
use vcm_code::{Branch, Branches};
use vcm_num::{Items, NoMemory};

// A branch: its value, and behind the first `@` its target.
#[tactic(auto, unfolding(crate::specs::Branches::branch_in))]
fn branch_of(exact: bool, word: &[u8]) -> Option<Branch>
    ensures { result ≡ branch_in exact word.now }
{
    let (front, left) = cut(b'@', word);
    let behind = left?;
    let value = signed(exact, front)?;
    let target = long(exact, behind)?;
    Some(Branch { value, target })
}

/// Branches of a SELECT, as words of a line. Contracts see them as a list.
#[derive(Drop)]
pub struct BranchWords<'a> {
    exact: bool,
    passed: bool,
    words: Words<'a>,
}

impl<'a> Model for BranchWords<'a> {
    ghost use Rattle.std.specs.Prelude.{List};
    ghost use Rattle.vcm_code.specs.declared.branch.Branch.{Branch};
    ghost use Rattle.vcm_words.specs.Branches.{branch_in};
    ghost use Rattle.vcm_words.specs.inner.Slices.{values_left, AreLeft};

    ghost Value = { List Branch };

    ghost view = { λ s. values_left 125 (branch_in s.exact) s.passed s.words };

    ghost invariant = { λ s. AreLeft 125 (branch_in s.exact) s.passed s.words };
}

impl<'a> BranchWords<'a> {
    // No branches.
    fn none(exact: bool) -> BranchWords<'a>
        ensures { result ≡ [] }
    {
        BranchWords {
            exact,
            passed: true,
            words: Words::none(),
        }
    }

    /// The same branches.
    pub fn again(&self) -> BranchWords<'a>
        ensures { result ≡ self.now }
    {
        BranchWords {
            exact: self.exact,
            passed: self.passed,
            words: self.words.again(),
        }
    }

    /// The first branch and those after it, if there is one.
    pub fn split_first(&self) -> Option<(Branch, BranchWords<'a>)>
        ensures { MatchOption result (self.now ≡ []) (λ x. self.now ≡ x.0 ∷ x.1) }
    {
        if self.passed {
            return None;
        }
        match self.words.split_first() {
            Some((word, words)) => match before_end(b'}', word) {
                Some(last) => match branch_of(self.exact, last) {
                    Some(branch) => Some((
                        branch,
                        BranchWords {
                            exact: self.exact,
                            passed: true,
                            words,
                        },
                    )),
                    None => unreachable!(),
                },
                None => match branch_of(self.exact, word) {
                    Some(branch) => Some((
                        branch,
                        BranchWords {
                            exact: self.exact,
                            passed: false,
                            words,
                        },
                    )),
                    None => unreachable!(),
                },
            },
            None => unreachable!(),
        }
    }
}

impl<'a> Branches for BranchWords<'a> {
    ghost branches = { λ s. s };

    fn to_branches(&self, alloc: Global) -> Result<Items<Branch>, NoMemory> {
        let mut copy = Items::new(alloc);
        let mut rest = self.again();
        while let Some((branch, after)) = rest.split_first() {
            copy.push(branch)?;
            rest = after;
        }
        Ok(copy)
    }
}

/// The most branches of a SELECT.
const MOST_BRANCHES: u16 = vcm_num::MOST_BRANCHES as u16;

// How many branches there are up to the closing brace, at least one, and the words behind it.
fn branches_end<'a>(exact: bool, words: &Words<'a>) -> Option<(u16, Words<'a>)>
    ensures some { IfSome result (λ x. Found 125 (branch_in exact) 20000 words.now x.0 x.1) }
    ensures none { IfNone result (up_to 125 (branch_in exact) words.now ≡ None) }
{
    let mut rest = words.again();
    let mut count: u16 = 0;
    while let Some((word, more)) = rest.split_first() {
        count = one_more(MOST_BRANCHES, count);
        match before_end(b'}', word) {
            Some(last) => {
                branch_of(exact, last)?;
                return Some((count, more));
            }
            None => {
                branch_of(exact, word)?;
            }
        }
        rest = more;
    }
    None
}

// 1 to 20,000 branches between braces, and the words behind them.
#[tactic(auto, unfolding(crate::specs::Branches::braced_at, crate::specs::Enclosed::between))]
fn braced<'a>(exact: bool, words: &Words<'a>) -> Option<(BranchWords<'a>, Words<'a>)>
    ensures { result ≡ braced_at exact words.now }
{
    let inside = words.unopened(b'{')?;
    let (count, rest) = branches_end(exact, &inside)?;
    if exact && count > MOST_BRANCHES {
        return None;
    }
    Some((
        BranchWords {
            exact,
            passed: false,
            words: inside,
        },
        rest,
    ))
}

// No branches, and the words behind the braces.
fn empty<'a>(exact: bool, words: &Words<'a>) -> Option<(BranchWords<'a>, Words<'a>)>
    ensures { result ≡ none_at words.now }
{
    let (word, rest) = words.split_first()?;
    if word == b"{}".as_slice() {
        Some((BranchWords::none(exact), rest))
    } else {
        None
    }
}

/// Branches, none or up to 20,000 between braces, and the words behind them; read exactly, or with the shape of a number for a number and any count of
/// branches.
#[tactic(auto, unfolding(crate::specs::Branches::branches_at))]
pub fn branches<'a>(exact: bool, words: &Words<'a>) -> Option<(BranchWords<'a>, Words<'a>)>
    ensures { result ≡ branches_at exact words.now }
{
    match empty(exact, words) {
        Some(none) => Some(none),
        None => braced(exact, words),
    }
}
