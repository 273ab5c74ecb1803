//! Puts the blocks of a `SELECT` together, one statement at a time.

ghost use Rattle.std.specs.Prelude.{Some, None, OnOk, IfOk, IfErr};
ghost use Rattle.vcm_lines.specs.Fault.{NoMemoryOr};
ghost use Rattle.vcm_tree.specs.Blocks.{case_begun, case_ended, select_ended};
ghost use Rattle.vcm_program.specs.Telling.{ToldAt};
ghost use Rattle.vcm_tree.specs.inner.Growing.{begins, blocks_of, growing, kinds, ReadsWith};

use crate::builder::{Builder, Head, unbalanced};
use crate::cases::CaseBlocks;
use std::alloc::Global;
use vcm_expr::Typed;
use vcm_lines::SourceFault;
use vcm_nodes::{Cases, Node};

/// A `SELECT` that is open, and none of its blocks: its line, its value and the blocks behind it so far.
#[derive(Drop)]
pub(crate) enum Selection {
    /// Without `DFTCAS`.
    Plain(u32, Typed, CaseBlocks),
    /// With it.
    Defaulted(u32, Typed, Cases),
}

impl Builder {
    /// `CASE` with its value, or `DFTCAS` without.
    pub(crate) fn begin_case(
        &mut self,
        alloc: Global,
        line: u32,
        selection: Selection,
        value: Option<i64>,
    ) -> Result<(), SourceFault>
        ensures ok { OnOk result (ReadsWith (case_begun (kinds (growing self.old (Some selection))) (begins value)) line self.old (Some selection) self.new None) }
        ensures fault { IfErr result (NoMemoryOr (ToldAt line (case_begun (kinds (growing self.old (Some selection))) (begins value)))) }
    {
        match selection {
            Selection::Plain(start, chosen, cases) => {
                self.room(line)?;
                self.open(alloc, Head::Case(start, chosen, cases, line, value))?;
                Ok(())
            }
            Selection::Defaulted(_, _, _) => Err(unbalanced(line)),
        }
    }

    /// `ENDCAS`.
    pub(crate) fn end_case(&mut self, line: u32) -> Result<Selection, SourceFault>
        ensures ok { IfOk result (λ s. ReadsWith (case_ended (blocks_of self.old)) line self.old None self.new (Some s)) }
        ensures fault { IfErr result (NoMemoryOr (ToldAt line (case_ended (blocks_of self.old)))) }
    {
        let Some((head, block)) = self.leave() else {
            return Err(unbalanced(line));
        };
        match head {
            Head::Case(start, chosen, cases, at, value) => match value {
                Some(value) => {
                    let cases = cases.push(at, value, block, line)?;
                    Ok(Selection::Plain(start, chosen, cases))
                }
                None => {
                    let cases = cases.with_default(at, block, line);
                    Ok(Selection::Defaulted(start, chosen, cases))
                }
            },
            _ => Err(unbalanced(line)),
        }
    }

    /// `ENDSEL`.
    pub(crate) fn end_select(&mut self, line: u32, selection: Selection) -> Result<(), SourceFault>
        ensures ok { OnOk result (ReadsWith (select_ended (kinds (growing self.old (Some selection)))) line self.old (Some selection) self.new None) }
        ensures fault { IfErr result (NoMemoryOr (ToldAt line (select_ended (kinds (growing self.old (Some selection)))))) }
    {
        match selection {
            Selection::Plain(start, chosen, cases) => {
                let cases = cases.into_cases();
                self.add(Node::Select(start, chosen, cases, line))?;
                Ok(())
            }
            Selection::Defaulted(start, chosen, cases) => {
                self.add(Node::Select(start, chosen, cases, line))?;
                Ok(())
            }
        }
    }
}
