//! The backtraces of the statements of some steps of a run with several probes.

ghost use Rattle.std.specs.Prelude.{◌≡◌, map, option_map, slice_get, IfOk};
ghost use Rattle.vcm_set_views.specs.Backtraces.{is_wanted, HasTold, AreBacktraces};

use crate::fitted::Fitted;
use crate::following::SeesSteps;
use crate::reasons::source_in;
use crate::running::run_seen;
use std::alloc::Global;
use vcm_backtrace::{Source, Standing, backtrace_of};
use vcm_cause::{MOST_LOOPS, Rounds, count_round};
use vcm_fields::BorrowedStatement;
use vcm_loader::Loaded;
use vcm_num::NoMemory;
use vcm_state::World;
use vcm_turning::Turn;
use vcm_way::StepMarks;

// Whether the step that is wanted next, if one is, is this one.
fn is_wanted(wanted: &[u64], place: usize, count: u64) -> bool
    ensures { result ≡ is_wanted (slice_get wanted.now place) count }
{
    match wanted.get(place) {
        Some(next) => *next == count,
        None => false,
    }
}

/// Tells the backtraces of the statements of these steps, which stand in their order.
#[derive(Clone, Copy)]
struct Telling<'a> {
    alloc: Global,
    source: &'a Option<Source<'a>>,
    loaded: &'a Loaded<'a>,
    wanted: &'a [u64],
}

/// What was told so far, of the first of these steps, and how many rounds each loop has begun.
#[derive(Drop)]
struct Told {
    texts: Vec<Vec<u8>>,
    rounds: Rounds,
}

impl SeesSteps<Told> for Telling<'_> {
    ghost One = { λ s tables from to step marks. HasTold s.source.now s.loaded.now.statements tables s.wanted.now (map (λ t. t.items) from.texts.items) from.rounds
        (map (λ t. t.items) to.texts.items) to.rounds step };

    fn see(
        &self,
        count: u64,
        number: u32,
        _on: Option<usize>,
        statement: &BorrowedStatement<'_>,
        world: &World,
        next: u32,
        _turn: Turn,
        _marks: &StepMarks,
        to: &mut Told,
    ) -> Result<(), NoMemory> {
        count_round(&mut to.rounds, &statement.op, number, next, world.stop());
        if !is_wanted(self.wanted, to.texts.len(), count) {
            return Ok(());
        }
        let standing = Standing {
            tables: world.tables(),
            variables: world.variables(),
            rounds: &to.rounds,
        };
        let text = backtrace_of(self.alloc, self.source, self.loaded, &standing, number)?;
        to.texts.push(text)?;
        Ok(())
    }
}

/// The backtraces of the statements of these steps of a run, which stand in their order and are among the first so many, in lines: of a code from this text, or of an image, which has
/// none.
///
/// Errors: want of memory.
pub fn set_backtraces(
    alloc: Global,
    fitted: &Fitted<'_>,
    steps: u64,
    text: Option<&[u8]>,
    wanted: &[u64],
) -> Result<Vec<Vec<u8>>, NoMemory>
    ensures { IfOk result (λ v. AreBacktraces (option_map (λ t. t.now) text.entry) fitted.now steps wanted.now (map (λ t. t.items) v.items)) }
{
    let source = source_in(alloc, text)?;
    let by = Telling {
        alloc,
        source: &source,
        loaded: fitted.loaded,
        wanted,
    };
    let mut told = Told {
        texts: Vec::new(alloc),
        rounds: [0; MOST_LOOPS],
    };
    let _ending = run_seen(alloc, fitted, steps, &by, &mut told)?;
    Ok(told.texts)
}
