//! Numbers the labels of a program.

ghost use Rattle.std.specs.Prelude.{◌≡◌, ◌+◌, ◌++◌, ◌≤◌, IfOk, OnOk};
ghost use Rattle.vcm_spec.specs.Program.{size, sizes, case_sizes};
ghost use Rattle.vcm_nodes.specs.Nodes.{node_of};
ghost use Rattle.vcm_asm.specs.Assembled.{marks, node_marks, case_marks};
ghost use Rattle.vcm_asm.specs.inner.Once.{Once};

use crate::numbers::Numbers;
use std::alloc::AllocError;
use vcm_nodes::{Block, Cases, Node};

/// Adds the labels of a block whose first statement has the number `base`. The answer is the number behind its last statement.
#[cycle(mark)]
pub(crate) fn mark_block(numbers: &mut Numbers, block: &Block, base: u32) -> Result<u32, AllocError>
    requires short { base + sizes block.now ≤ 20000 }
    requires once { Once (numbers.old ++ marks block.now base) }
    ensures marks { OnOk result (numbers.new ≡ numbers.old ++ marks block.now base) }
    ensures end { IfOk result (λ end. end ≡ base + sizes block.now) }
{
    let mut number = base;
    for node in block.nodes() {
        number = mark_node(numbers, node, number)?;
    }
    Ok(number)
}

/// Adds the labels of a node whose first statement has the number `base`. The answer is the number behind its last statement.
#[cycle(mark)]
fn mark_node(numbers: &mut Numbers, node: &Node, base: u32) -> Result<u32, AllocError>
    requires short { base + size (node_of node.now) ≤ 20000 }
    requires once { Once (numbers.old ++ node_marks (node_of node.now) base) }
    ensures marks { OnOk result (numbers.new ≡ numbers.old ++ node_marks (node_of node.now) base) }
    ensures end { IfOk result (λ end. end ≡ base + size (node_of node.now)) }
{
    match node {
        Node::Simple(_, _) | Node::Jump(_, _) | Node::Ending(_) => Ok(base + 1),
        Node::Label(_, label) => {
            numbers.add(label.copy(), base)?;
            Ok(base + 1)
        }
        Node::Choice(_, _, first, other, _) => {
            let middle = mark_block(numbers, first, base + 1)?;
            match other {
                None => Ok(middle + 1),
                Some((_, second)) => {
                    let end = mark_block(numbers, second, middle + 1)?;
                    Ok(end + 1)
                }
            }
        }
        Node::Repeat(_, _, _, _, _, body, _) => {
            let end = mark_block(numbers, body, base + 1)?;
            Ok(end + 1)
        }
        Node::Measure(_, _, body, _) => {
            let end = mark_block(numbers, body, base + 1)?;
            Ok(end + 1)
        }
        Node::Select(_, _, cases, _) => {
            let end = mark_cases(numbers, cases, base + 1)?;
            Ok(end + 1)
        }
    }
}

/// Adds the labels of the blocks of a SELECT, whose first statement has the number `base`. The answer is the number behind the last one.
#[cycle(mark)]
fn mark_cases(numbers: &mut Numbers, cases: &Cases, base: u32) -> Result<u32, AllocError>
    requires short { base + case_sizes cases.now ≤ 20000 }
    requires once { Once (numbers.old ++ case_marks cases.now base) }
    ensures marks { OnOk result (numbers.new ≡ numbers.old ++ case_marks cases.now base) }
    ensures end { IfOk result (λ end. end ≡ base + case_sizes cases.now) }
{
    let mut number = base;
    for (_, _, block, _) in cases.cases() {
        let end = mark_block(numbers, block, number + 1)?;
        number = end + 1;
    }
    match cases.default() {
        None => Ok(number),
        Some((_, block, _)) => {
            let end = mark_block(numbers, block, number + 1)?;
            Ok(end + 1)
        }
    }
}
