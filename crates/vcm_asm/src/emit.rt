//! Writes the statements of nodes.

ghost use Rattle.std.specs.Prelude.{◌≡◌, ◌+◌, ◌++◌, ◌≤◌, length, IfOk, OnOk};
ghost use Rattle.vcm_spec.specs.Expression.{spelling};
ghost use Rattle.vcm_spec.specs.Simple.{with_form};
ghost use Rattle.vcm_spec.specs.Program.{size, sizes, case_sizes};
ghost use Rattle.vcm_nodes.specs.Nodes.{node_of};
ghost use Rattle.vcm_code.specs.declared.op.Op.TheVariants.{Do, Select};
ghost use Rattle.vcm_asm.specs.inner.Spelled.{Keeps, KeepThree, SimpleKeeps, NodeKeeps, BlockKeeps, CasesKeep};
ghost use Rattle.vcm_asm.specs.inner.Depth.{NodeDeep, Deep, CasesDeep};
ghost use Rattle.vcm_asm.specs.Assembled.{node_code, block_code, case_code, branches_of, last_target, place_in};

use crate::emitted::Emitted;
use crate::numbers::Numbers;
use std::alloc::Global;
use vcm_code::{Branch, Op, OwnedOp, OwnedSimple};
use vcm_expr::{Typed, to_postfix};
use vcm_nodes::{Action, Block, Cases, Node, count, count_cases};
use vcm_num::{Items, NoMemory};
use vcm_spec::{Item, Simple};

// The postfix items of an expression.
fn postfix(alloc: Global, e: &Typed) -> Result<Items<Item>, NoMemory>
    ensures items { IfOk result (λ items. items ≡ spelling e.now) }
    ensures keeps { OnOk result (Keeps e.now) }
{
    to_postfix(alloc, e)
}

// The postfix items of three expressions.
fn three(
    alloc: Global,
    x: &Typed,
    y: &Typed,
    z: &Typed,
) -> Result<(Items<Item>, Items<Item>, Items<Item>), NoMemory>
    ensures items { IfOk result (λ t. (t.0 ≡ spelling x.now) × (t.1 ≡ spelling y.now) × (t.2 ≡ spelling z.now)) }
    ensures keeps { OnOk result (KeepThree x.now y.now z.now) }
{
    let x = postfix(alloc, x)?;
    let y = postfix(alloc, y)?;
    let z = postfix(alloc, z)?;
    Ok((x, y, z))
}

// What a simple statement does, with its expressions as postfix items.
fn plain(alloc: Global, action: &Action) -> Result<OwnedSimple, NoMemory>
    ensures what { IfOk result (λ what. what ≡ with_form spelling action.now) }
    ensures keeps { OnOk result (SimpleKeeps action.now) }
{
    match action {
        Simple::Goto(x, y, z) => {
            let (x, y, z) = three(alloc, x, y, z)?;
            Ok(Simple::Goto(x, y, z))
        }
        Simple::GoHome => Ok(Simple::GoHome),
        Simple::Assign(variable, e) => {
            let e = postfix(alloc, e)?;
            Ok(Simple::Assign(*variable, e))
        }
        Simple::Feat(feature, x, y, z, toward) => {
            let (x, y, z) = three(alloc, x, y, z)?;
            Ok(Simple::Feat(*feature, x, y, z, *toward))
        }
        Simple::PtMeas(feature, x, y, z, toward) => {
            let (x, y, z) = three(alloc, x, y, z)?;
            Ok(Simple::PtMeas(*feature, x, y, z, *toward))
        }
        Simple::SnSet(setting, e) => {
            let e = postfix(alloc, e)?;
            Ok(Simple::SnSet(*setting, e))
        }
        Simple::Trans(frame, x, y, z) => {
            let (x, y, z) = three(alloc, x, y, z)?;
            Ok(Simple::Trans(*frame, x, y, z))
        }
        Simple::Rotate(frame, axis, quarters) => Ok(Simple::Rotate(*frame, *axis, *quarters)),
        Simple::Recall(frame) => Ok(Simple::Recall(*frame)),
        Simple::Obtain(variable, source, feature, word) => {
            Ok(Simple::Obtain(*variable, *source, *feature, *word))
        }
        Simple::Output(source, feature) => Ok(Simple::Output(*source, *feature)),
        Simple::Text(text) => {
            let bytes = Items::from_slice(alloc, text.as_bytes())?;
            Ok(Simple::Text(bytes))
        }
    }
}

// A DO whose exit isn't known yet, in the pair that has the number of the loops around it.
fn repeat(
    alloc: Global,
    variable: u16,
    depth: u8,
    initial: &Typed,
    limit: &Typed,
    increment: &Typed,
) -> Result<OwnedOp, NoMemory>
    ensures op { IfOk result (λ op. op ≡ Do variable depth (spelling initial.now) (spelling limit.now) (spelling increment.now) 0) }
    ensures keeps { OnOk result (KeepThree initial.now limit.now increment.now) }
{
    let initial = postfix(alloc, initial)?;
    let limit = postfix(alloc, limit)?;
    let increment = postfix(alloc, increment)?;
    Ok(Op::Do(variable, depth, initial, limit, increment, 0))
}

// The branches of a SELECT whose blocks' first statement has the number `first`, and where it goes if none of them has the value.
fn branches(alloc: Global, cases: &Cases, first: u32) -> Result<(Items<Branch>, u32), NoMemory>
    requires { first + case_sizes cases.now ≤ 20000 }
    ensures { IfOk result (λ t. (t.0 ≡ branches_of cases.now first) × (t.1 ≡ last_target cases.now first)) }
{
    let mut branches = Items::new(alloc);
    let mut number = first;
    for (_, value, block, _) in cases.cases() {
        let target = number + 1;
        branches.push(Branch {
            value: *value,
            target,
        })?;
        number = target + count(block) as u32 + 1;
    }
    match cases.default() {
        None => Ok((branches, number)),
        Some(_) => Ok((branches, number + 1)),
    }
}

// A SELECT whose blocks' first statement has the number `first`.
fn selection(alloc: Global, value: &Typed, cases: &Cases, first: u32) -> Result<OwnedOp, NoMemory>
    requires { first + case_sizes cases.now ≤ 20000 }
    ensures op { IfOk result (λ op. op ≡ Select (spelling value.now) (branches_of cases.now first) (last_target cases.now first)) }
    ensures keeps { OnOk result (Keeps value.now) }
{
    let value = postfix(alloc, value)?;
    let (branches, target) = branches(alloc, cases, first)?;
    Ok(Op::Select(value, branches, target))
}

/// Writes the statements of a block, around which `depth` DO stand; `numbers` has the numbers of the labels.
#[cycle(emit)]
pub(crate) fn emit_block(
    alloc: Global,
    code: &mut Emitted,
    numbers: &Numbers,
    block: &Block,
    depth: u8,
) -> Result<(), NoMemory>
    requires deep { Deep block.now depth }
    requires short { length code.old + sizes block.now ≤ 20000 }
    ensures code { OnOk result (code.new ≡ code.old ++ block_code (place_in numbers.now) block.now depth (length code.old)) }
    ensures keeps { OnOk result (BlockKeeps block.now) }
{
    for node in block.nodes() {
        emit_node(alloc, code, numbers, node, depth)?;
    }
    Ok(())
}

/// Writes the statements of a node. The targets of what opens a block are written once its end is known.
#[cycle(emit)]
fn emit_node(
    alloc: Global,
    code: &mut Emitted,
    numbers: &Numbers,
    node: &Node,
    depth: u8,
) -> Result<(), NoMemory>
    requires deep { NodeDeep (node_of node.now) depth }
    requires short { length code.old + size (node_of node.now) ≤ 20000 }
    ensures code { OnOk result (code.new ≡ code.old ++ node_code (place_in numbers.now) (node_of node.now) depth (length code.old)) }
    ensures keeps { OnOk result (NodeKeeps (node_of node.now)) }
{
    match node {
        Node::Simple(line, action) => code.put(*line, Op::Plain(plain(alloc, action)?)),
        Node::Label(line, _) => code.put(*line, Op::Label),
        Node::Jump(line, label) => code.put(*line, Op::JumpTo(numbers.place_of(label))),
        Node::Choice(line, test, first, other, close) => {
            let start = code.next();
            code.put(*line, Op::If(postfix(alloc, test)?, 0))?;
            emit_block(alloc, code, numbers, first, depth)?;
            let middle = code.next();
            match other {
                None => {
                    code.set_target(start, middle);
                    code.put(*close, Op::EndIf)
                }
                Some((mid, second)) => {
                    code.put(*mid, Op::Else(0))?;
                    code.set_target(start, middle + 1);
                    emit_block(alloc, code, numbers, second, depth)?;
                    let end = code.next();
                    code.set_target(middle, end + 1);
                    code.put(*close, Op::EndIf)
                }
            }
        }
        Node::Repeat(line, variable, initial, limit, increment, body, close) => {
            let start = code.next();
            let op = repeat(alloc, *variable, depth, initial, limit, increment)?;
            code.put(*line, op)?;
            emit_block(alloc, code, numbers, body, depth + 1)?;
            let end = code.next();
            code.set_target(start, end + 1);
            code.put(*close, Op::EndDo(*variable, depth, start + 1))
        }
        Node::Measure(line, feature, body, close) => {
            code.put(*line, Op::Meas(*feature))?;
            emit_block(alloc, code, numbers, body, depth)?;
            code.put(*close, Op::EndMes)
        }
        Node::Select(line, value, cases, close) => {
            let start = code.next();
            let op = selection(alloc, value, cases, start + 1)?;
            code.put(*line, op)?;
            let behind = start + 1 + count_cases(cases) as u32 + 1;
            emit_cases(alloc, code, numbers, cases, depth, behind)?;
            code.put(*close, Op::EndSel)
        }
        Node::Ending(line) => code.put(*line, Op::EndFil),
    }
}

/// Writes the statements of the blocks of a SELECT, behind whose ENDSEL the statement `behind` stands.
#[cycle(emit)]
fn emit_cases(
    alloc: Global,
    code: &mut Emitted,
    numbers: &Numbers,
    cases: &Cases,
    depth: u8,
    behind: u32,
) -> Result<(), NoMemory>
    requires deep { CasesDeep cases.now depth }
    requires short { length code.old + case_sizes cases.now ≤ 20000 }
    ensures code { OnOk result (code.new ≡ code.old ++ case_code (place_in numbers.now) cases.now depth (length code.old) behind) }
    ensures keeps { OnOk result (CasesKeep cases.now) }
{
    for (line, _, block, close) in cases.cases() {
        code.put(*line, Op::Case)?;
        emit_block(alloc, code, numbers, block, depth)?;
        code.put(*close, Op::EndCas(behind))?;
    }
    match cases.default() {
        None => Ok(()),
        Some((line, block, close)) => {
            code.put(*line, Op::DftCas)?;
            emit_block(alloc, code, numbers, block, depth)?;
            code.put(*close, Op::EndCas(behind))
        }
    }
}
