//! The blocks of a `SELECT`, one behind the other.

ghost use Rattle.std.specs.Prelude.{◌≡◌, [], ◌∷◌, ◌++◌, IfOk, Some, None};
ghost use Rattle.vcm_nodes.specs.Nodes.{cases_of};

use std::alloc::{AllocError, Global};
use std::marker::Model;
use vcm_nodes::{Block, Cases};

/// The blocks of `CASE` of a `SELECT`, so far. Contracts see them as a list, in order.
#[derive(Drop)]
pub(crate) struct CaseBlocks {
    cases: Cases,
}

impl Model for CaseBlocks {
    ghost use Rattle.std.specs.Prelude.{◌≡◌, List, None};
    ghost use Rattle.std.specs.Coded.{codes};
    ghost use Rattle.vcm_nodes.specs.Nodes.{other_of};
    ghost use Rattle.vcm_nodes.specs.inner.Codes.{block_coded};
    ghost use Rattle.vcm_tree.specs.inner.Closing.{Closed, closed_of};

    ghost Value = { List Closed };

    ghost coded = { Prim.hlevel (codes, block_coded) };

    ghost view = { λ b. closed_of b.cases };

    ghost invariant = { λ b. other_of b.cases ≡ None };
}

impl CaseBlocks {
    /// None.
    pub(crate) fn new(alloc: Global) -> CaseBlocks
        ensures { result ≡ [] }
    {
        CaseBlocks {
            cases: Cases::new(alloc),
        }
    }

    /// One more, behind the others.
    #[tactic(auto, using(crate::proofs::Builders::closed_more, crate::proofs::Builders::other_more))]
    pub(crate) fn push(
        self,
        line: u32,
        value: i64,
        block: Block,
        close: u32,
    ) -> Result<CaseBlocks, AllocError>
        ensures { IfOk result (λ cs. cs ≡ self ++ (line, value, block, close) ∷ []) }
    {
        let mut cases = self.cases;
        cases.push(line, value, block, close)?;
        Ok(CaseBlocks { cases })
    }

    /// With the block of `DFTCAS` behind them.
    #[tactic(auto, using(crate::proofs::Builders::defaulted))]
    pub(crate) fn with_default(self, line: u32, block: Block, close: u32) -> Cases
        ensures { result ≡ cases_of self (Some (line, block, close)) }
    {
        let mut cases = self.cases;
        cases.set_default(line, block, close);
        cases
    }

    /// Without one.
    #[tactic(auto, using(crate::proofs::Builders::closed_whole))]
    pub(crate) fn into_cases(self) -> Cases
        ensures { result ≡ cases_of self None }
    {
        self.cases
    }
}
