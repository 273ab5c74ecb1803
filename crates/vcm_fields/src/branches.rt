//! Branches of a SELECT, which contracts see as what they spell.

ghost use Rattle.std.specs.Prelude.{◌≡◌, ◌∷◌, [], MatchOption};
ghost use Rattle.vcm_fields.specs.Readers.{Gives, times, branch_at};

use crate::fault::ImageFault;
use crate::fields::{long, signed};
use std::alloc::Global;
use std::marker::Model;
use vcm_code::{Branch, Branches};
use vcm_num::{Items, NoMemory};

// A branch: its value, and its target.
#[tactic(auto, unfolding(crate::specs::Readers::branch_at))]
#[inline(always)]
fn branch(bytes: &[u8]) -> Result<(Branch, &[u8]), ImageFault>
    ensures { Gives (λ x. (x.0, x.1.now)) result (branch_at bytes.now) }
{
    let (value, rest) = signed(bytes)?;
    let (target, rest) = long(rest)?;
    Ok((Branch { value, target }, rest))
}

/// Branches of a SELECT, as bytes of an image.
#[derive(Drop)]
pub struct BranchSlice<'a> {
    count: u16,
    bytes: &'a [u8],
}

impl<'a> Model for BranchSlice<'a> {
    ghost use Rattle.std.specs.Prelude.{List};
    ghost use Rattle.vcm_code.specs.declared.branch.Branch.{Branch};

    ghost Value = { List Branch };

    ghost use Rattle.vcm_fields.specs.inner.Slices.{branches_in, AreBranches};

    ghost view = { λ s. branches_in s.count s.bytes.now };

    ghost invariant = { λ s. AreBranches s.count s.bytes.now };
}

impl<'a> BranchSlice<'a> {
    /// The first so many branches, and the bytes behind them.
    #[inline(always)]
    pub(crate) fn cut(
        count: u16,
        bytes: &'a [u8],
    ) -> Result<(BranchSlice<'a>, &'a [u8]), ImageFault>
        ensures { Gives (λ x. (x.0, x.1.now)) result (times branch_at count bytes.now) }
    {
        let mut rest = bytes;
        for _ in 0..count {
            let (_branch, after) = branch(rest)?;
            rest = after;
        }
        let length = bytes.len() - rest.len();
        let (front, rest) = bytes.split_at(length);
        Ok((
            BranchSlice {
                count,
                bytes: front,
            },
            rest,
        ))
    }

    /// The same branches.
    pub fn again(&self) -> BranchSlice<'a>
        ensures { result ≡ self.now }
    {
        BranchSlice {
            count: self.count,
            bytes: self.bytes,
        }
    }

    /// The first branch and those after it, if there is one.
    #[inline(always)]
    pub fn split_first(&self) -> Option<(Branch, BranchSlice<'a>)>
        ensures { MatchOption result (self.now ≡ []) (λ x. self.now ≡ x.0 ∷ x.1) }
    {
        if self.count == 0 {
            return None;
        }
        match branch(self.bytes) {
            Ok((first, after)) => Some((
                first,
                BranchSlice {
                    count: self.count - 1,
                    bytes: after,
                },
            )),
            Err(_) => unreachable!(),
        }
    }
}

impl<'a> Branches for BranchSlice<'a> {
    ghost branches = { λ s. s };

    fn to_branches(&self, alloc: Global) -> Result<Items<Branch>, NoMemory> {
        let mut copy = Items::new(alloc);
        let mut rest = self.again();
        while let Some((branch, after)) = rest.split_first() {
            copy.push(branch)?;
            rest = after;
        }
        Ok(copy)
    }
}
