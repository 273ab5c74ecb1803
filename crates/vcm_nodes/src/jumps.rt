//! Judges the jumps of a program.

ghost use Rattle.std.specs.Prelude.{◌≡◌, ◌++◌, ◌∷◌, [], length, OnOk, IfOk, IfErr, MatchResult};
ghost use Rattle.vcm_lines.specs.Fault.{NoMemoryOr};
ghost use Rattle.vcm_spec.specs.Phase.{IsClean, FirstFault};
ghost use Rattle.vcm_nodes.specs.Nodes.{node_of};
ghost use Rattle.vcm_nodes.specs.Jumps.{own_labels, node_jumps, jumps_in, jumps_among, jumps_of, labels_of, BreaksJumps, jumps_line};
ghost use Rattle.vcm_nodes.specs.inner.Judging.{AllReach, IsFirst, jump, with_labels};

use crate::labels::Labels;
use crate::node::{Block, Cases, Label, Node};
use std::alloc::{AllocError, Global};
use vcm_lines::{FaultCode, SourceFault};

/// The labels that stand directly in a block are added to those within reach; the answer is how many there were.
fn enter(reach: &mut Labels, block: &Block) -> Result<usize, AllocError>
    ensures labels { OnOk result (reach.new ≡ with_labels reach.old (own_labels block.now)) }
    ensures before { IfOk result (λ n. n ≡ length reach.old) }
{
    let before = reach.len();
    for node in &block.nodes {
        if let Node::Label(_, label) = node {
            reach.add(label.copy())?;
        }
    }
    Ok(before)
}

/// A jump to a label.
fn check_jump(line: u32, all: &Labels, reach: &Labels, label: &Label) -> Result<(), SourceFault>
    ensures { MatchResult result (λ _. AllReach all.now (jump line label.now reach.now ∷ [])) (IsFirst all.now (jump line label.now reach.now ∷ [])) }
{
    if !all.contains(label) {
        return Err(SourceFault {
            code: FaultCode::UnknownName,
            line,
        });
    }
    if !reach.contains(label) {
        return Err(SourceFault {
            code: FaultCode::JumpInward,
            line,
        });
    }
    Ok(())
}

/// The jumps of a block. Its labels are within reach in it, and no longer behind it.
#[cycle(jumps)]
fn check_block(all: &Labels, reach: &mut Labels, block: &Block) -> Result<(), SourceFault>
    ensures same { OnOk result (reach.new ≡ reach.old) }
    ensures ok { OnOk result (AllReach all.now (jumps_in block.now (reach.old ++ own_labels block.now))) }
    ensures fault { IfErr result (NoMemoryOr (IsFirst all.now (jumps_in block.now (reach.old ++ own_labels block.now)))) }
{
    let before = enter(reach, block)?;
    for node in &block.nodes {
        check_node(all, reach, node)?;
    }
    reach.truncate(before);
    Ok(())
}

/// The jumps of a node.
#[cycle(jumps)]
fn check_node(all: &Labels, reach: &mut Labels, node: &Node) -> Result<(), SourceFault>
    ensures same { OnOk result (reach.new ≡ reach.old) }
    ensures ok { OnOk result (AllReach all.now (node_jumps (node_of node.now) reach.old)) }
    ensures fault { IfErr result (NoMemoryOr (IsFirst all.now (node_jumps (node_of node.now) reach.old))) }
{
    match node {
        Node::Simple(_, _) | Node::Label(_, _) | Node::Ending(_) => Ok(()),
        Node::Jump(line, label) => {
            check_jump(*line, all, reach, label)?;
            Ok(())
        }
        Node::Choice(_, _, first, other, _) => {
            check_block(all, reach, first)?;
            match other {
                None => Ok(()),
                Some((_, second)) => {
                    check_block(all, reach, second)?;
                    Ok(())
                }
            }
        }
        Node::Repeat(_, _, _, _, _, body, _) => {
            check_block(all, reach, body)?;
            Ok(())
        }
        Node::Measure(_, _, body, _) => {
            check_block(all, reach, body)?;
            Ok(())
        }
        Node::Select(_, _, cases, _) => {
            check_cases(all, reach, cases)?;
            Ok(())
        }
    }
}

/// The jumps of the blocks of a SELECT.
#[cycle(jumps)]
fn check_cases(all: &Labels, reach: &mut Labels, cases: &Cases) -> Result<(), SourceFault>
    ensures same { OnOk result (reach.new ≡ reach.old) }
    ensures ok { OnOk result (AllReach all.now (jumps_among cases.now reach.old)) }
    ensures fault { IfErr result (NoMemoryOr (IsFirst all.now (jumps_among cases.now reach.old))) }
{
    for (_, _, block, _) in cases.cases() {
        check_block(all, reach, block)?;
    }
    match cases.default() {
        None => Ok(()),
        Some((_, block, _)) => {
            check_block(all, reach, block)?;
            Ok(())
        }
    }
}

/// Judges the jumps of a program, whose labels are `all`.
///
/// Errors: the first jump to a label that there isn't, or that stands in no block around the jump, at its line, the first being 1, or want of
/// memory, at line 0.
pub fn check_jumps(alloc: Global, all: &Labels, program: &Block) -> Result<(), SourceFault>
    requires { all.now ≡ labels_of program.now }
    ensures clean { OnOk result (IsClean (BreaksJumps (labels_of program.now)) (jumps_of program.now)) }
    ensures fault { IfErr result (NoMemoryOr (λ f. FirstFault (BreaksJumps (labels_of program.now)) jumps_line (jumps_of program.now) f.code f.line)) }
{
    let mut reach = Labels::new(alloc);
    check_block(all, &mut reach, program)?;
    Ok(())
}
