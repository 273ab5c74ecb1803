//! The program that statements are.

ghost use Rattle.std.specs.Prelude.{◌≡◌, ◌++◌, IfOk, IfErr, OnOk, IsTrue, List, [], Option, None};
ghost use Rattle.vcm_lines.specs.Fault.{NoMemoryOr};
ghost use Rattle.vcm_spec.specs.Phase.{IsClean, FirstFault};
ghost use Rattle.vcm_nodes.specs.Jumps.{labels_of};
ghost use Rattle.vcm_tree.specs.Ended.{is_ended};
ghost use Rattle.vcm_tree.specs.Program.{notice_of, notices_of, IsParsed};
ghost use Rattle.vcm_forms.specs.declared.statement.Statement.{Statement as Said};
ghost use Rattle.vcm_macro.specs.declared.placed.Placed.{Placed as Stands};
ghost use Rattle.vcm_program.specs.Telling.{ToldAt};
ghost use Rattle.vcm_tree.specs.Resolving.{resolved_here, BreaksNames, names_line};
ghost use Rattle.vcm_tree.specs.inner.Taking.{behind_with, Takes};
ghost use Rattle.vcm_tree.specs.declared.selection.Selection.{Selection as Waits};
ghost use Rattle.vcm_tree.specs.inner.Walking.{IsWalked};

use crate::builder::Builder;
use crate::selection::Selection;
use crate::taking::{Progress, take};
use std::alloc::{AllocError, Global};
use vcm_expr::Names;
use vcm_forms::{Form, Statement};
use vcm_lines::SourceFault;
use vcm_macro::Placed;
use vcm_nodes::{Block, Labels};
use vcm_program::{Listing, Noticed, Titles};

/// A program whose jumps are not judged yet, its jump labels, its names, and its notices.
#[derive(Drop)]
pub(crate) struct DraftProgram {
    pub(crate) tree: Block,
    pub(crate) labels: Labels,
    pub(crate) names: Listing,
    pub(crate) notices: Vec<Noticed>,
}

// The notice of a statement that has no effect.
fn note(notices: &mut Vec<Noticed>, statement: &Statement) -> Result<(), AllocError>
    ensures { OnOk result (notices.new.items ≡ notices.old.items ++ notice_of statement.now) }
{
    if let Form::Ignored(word) = statement.form {
        let line = statement.line;
        notices.push(Noticed { line, word })?;
    }
    Ok(())
}

/// The notices of the statements that are written.
///
/// # Errors
///
/// Out of memory.
pub fn noted(alloc: Global, written: &[Statement]) -> Result<Vec<Noticed>, AllocError>
    ensures { IfOk result (λ notices. notices.items ≡ notices_of written.now) }
{
    let mut notices = Vec::new(alloc);
    for statement in written {
        note(&mut notices, statement)?;
    }
    Ok(notices)
}

// Nothing is read, and outside blocks there is memory for so many nodes.
fn begun(alloc: Global, nodes: usize) -> Result<Progress, AllocError>
    ensures { IfOk result (λ read. (all : List Stands) → IsWalked all read None all) }
{
    let builder = Builder::new(alloc, nodes)?;
    Ok(Progress {
        names: Names::new(alloc),
        features: Titles::new(alloc),
        frames: Titles::new(alloc),
        touched: false,
        labels: Labels::new(alloc),
        builder,
    })
}

// Reads one statement more, and gives it up.
fn take_one(
    alloc: Global,
    read: &mut Progress,
    selection: Option<Selection>,
    placed: Placed,
) -> Result<Option<Selection>, SourceFault>
    ensures ok { IfOk result (Takes placed read.old selection read.new) }
    ensures fault { IfErr result (NoMemoryOr (ToldAt placed.statement.line (resolved_here (behind_with read.old selection) placed))) }
{
    let statement = &placed.statement;
    let taken = take(alloc, read, selection, statement, placed.expansion);
    drop(placed);
    taken
}

// Reads all statements, one behind the other.
fn take_all(alloc: Global, read: &mut Progress, all: Vec<Placed>) -> Result<(), SourceFault>
    requires { IsWalked all.items read.old None all.items }
    ensures ok { IfOk result (λ _. (waits : Option Waits) × IsWalked all.items read.new waits []) }
    ensures fault { IfErr result (NoMemoryOr (λ f. FirstFault BreaksNames names_line all.items f.code f.line)) }
{
    let mut selection = None;
    for placed in all {
        selection = take_one(alloc, read, selection, placed)?;
    }
    Ok(())
}

// What is read, as a program with these notices.
fn draft_of(read: Progress, notices: Vec<Noticed>) -> DraftProgram
    ensures tree { result.tree ≡ read.builder.block }
    ensures labels { result.labels ≡ read.labels }
    ensures names { result.names ≡ record { variables = read.names; features = read.features; frames = read.frames } }
    ensures notices { result.notices ≡ notices }
{
    let names = Listing {
        variables: read.names,
        features: read.features,
        frames: read.frames,
    };
    let labels = read.labels;
    let builder = read.builder;
    let tree = builder.block;
    DraftProgram {
        tree,
        labels,
        names,
        notices,
    }
}

/// The program of the expanded statements, with these notices, or the first fault among their names and blocks.
pub(crate) fn drafted(
    alloc: Global,
    notices: Vec<Noticed>,
    all: Vec<Placed>,
) -> Result<DraftProgram, SourceFault>
    requires ended { IsTrue (is_ended all.items) }
    ensures clean { IfOk result (λ _. IsClean BreaksNames all.items) }
    ensures program { IfOk result (λ d. (written : List Said) → notices.items ≡ notices_of written → IsParsed written all.items (record { program = d.tree; tables = d.names; notices = d.notices.items })) }
    ensures labels { IfOk result (λ d. d.labels ≡ labels_of d.tree) }
    ensures fault { IfErr result (NoMemoryOr (λ f. FirstFault BreaksNames names_line all.items f.code f.line)) }
{
    let mut read = begun(alloc, all.len())?;
    match take_all(alloc, &mut read, all) {
        Ok(()) => Ok(draft_of(read, notices)),
        Err(fault) => {
            drop(read);
            Err(fault)
        }
    }
}
