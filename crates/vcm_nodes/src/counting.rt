//! Counts the statements of a program.

ghost use Rattle.std.specs.Prelude.{◌≡◌, ◌≤◌, ◌+◌};
ghost use Rattle.vcm_spec.specs.Program.{size, sizes, case_sizes};
ghost use Rattle.vcm_nodes.specs.Nodes.{node_of, block_of};

use crate::node::{Block, Cases, Node};

/// How many statements a block has, which are at most 20,000.
#[cycle(count)]
pub fn count(block: &Block) -> usize
    requires { sizes block.now ≤ 20000 }
    ensures { result ≡ sizes block.now }
{
    let mut all = 0;
    for node in &block.nodes {
        all += count_node(node);
    }
    all
}

#[cycle(count)]
fn count_node(node: &Node) -> usize
    requires { size (node_of node.now) ≤ 20000 }
    ensures { result ≡ size (node_of node.now) }
{
    match node {
        Node::Simple(_, _) | Node::Label(_, _) | Node::Jump(_, _) | Node::Ending(_) => 1,
        Node::Choice(_, _, first, other, _) => match other {
            None => count(first) + 2,
            Some((_, second)) => count(first) + count(second) + 3,
        },
        Node::Repeat(_, _, _, _, _, body, _) => count(body) + 2,
        Node::Measure(_, _, body, _) => count(body) + 2,
        Node::Select(_, _, cases, _) => count_cases(cases) + 2,
    }
}

/// How many statements the blocks of a SELECT have, which are at most 20,000.
#[cycle(count)]
pub fn count_cases(cases: &Cases) -> usize
    requires { case_sizes cases.now ≤ 20000 }
    ensures { result ≡ case_sizes cases.now }
{
    let mut all = 0;
    for (_, _, block, _) in cases.cases() {
        all += count(block) + 2;
    }
    match cases.default() {
        None => all,
        Some((_, block, _)) => all + count(block) + 2,
    }
}
