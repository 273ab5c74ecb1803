//! Where a step of a run stands.

ghost use Rattle.std.specs.Prelude.{◌≡◌, pos, replicate, slice_set, IfOk};
ghost use Rattle.vcm_backtrace.specs.Standing.{put_over};

use std::alloc::Global;
use std::marker::Model;
use vcm_cause::{MOST_LOOPS, Rounds};
use vcm_items::Tables;
use vcm_num::NoMemory;

/// Where a step stands: the tables of the program's names, and behind the step the values of its variables and how many rounds each loop has begun.
#[derive(Clone, Copy)]
pub struct Standing<'a> {
    pub tables: &'a Tables,
    pub variables: &'a [i64],
    pub rounds: &'a Rounds,
}

/// The values of variables and the rounds of loops as they were behind a step that is past. Making it takes memory, keeping others in it takes none. Contracts see it as a `Past`.
#[derive(Drop)]
pub struct Kept {
    variables: Vec<i64>,
    rounds: Rounds,
}

impl Model for Kept {
    ghost use Rattle.vcm_backtrace.specs.Standing.{Past};

    ghost Value = { Past };

    ghost view = { λ k. record { variables = k.variables.items; rounds = k.rounds } };
}

// Puts a value in a place, if there is one.
fn put_at(values: &mut Vec<i64>, place: usize, value: i64)
    ensures { values.new.items ≡ slice_set values.old.items place value }
{
    if place < values.len() {
        values[place] = value;
    }
}

// Puts values in the place of others.
fn put_over(values: &mut Vec<i64>, others: &[i64])
    ensures { values.new.items ≡ put_over values.old.items 0 others.now }
{
    for (place, other) in others.iter().enumerate() {
        put_at(values, place, *other);
    }
}

// So many values, each 0.
fn zeros(alloc: Global, count: usize) -> Result<Vec<i64>, NoMemory>
    ensures { IfOk result (λ v. v.items ≡ replicate count (pos 0)) }
{
    Ok(vec![in alloc; 0; count]?)
}

impl Kept {
    ghost use Rattle.std.specs.Prelude.{◌≡◌, IfOk};
    ghost use Rattle.vcm_backtrace.specs.Standing.{nothing_kept, kept_over};

    /// Of so many variables each 0, and of no loop a round.
    ///
    /// Errors: want of memory.
    pub fn new(alloc: Global, count: usize) -> Result<Kept, NoMemory>
        ensures { IfOk result (λ k. k ≡ nothing_kept count) }
    {
        let variables = zeros(alloc, count)?;
        Ok(Kept {
            variables,
            rounds: [0; MOST_LOOPS],
        })
    }

    /// Keeps those of a step in the place of others. It takes no memory.
    pub fn keep(&mut self, standing: &Standing<'_>)
        ensures { self.new ≡ kept_over self.old standing.now.variables.now standing.now.rounds.now }
    {
        put_over(&mut self.variables, standing.variables);
        self.rounds = *standing.rounds;
    }

    /// Where the step stood, by these tables.
    pub fn standing<'a>(&'a self, tables: &'a Tables) -> Standing<'a>
        ensures tables { result.tables.now ≡ tables.now }
        ensures variables { result.variables.now ≡ self.now.variables }
        ensures rounds { result.rounds.now ≡ self.now.rounds }
    {
        Standing {
            tables,
            variables: self.variables.as_slice(),
            rounds: &self.rounds,
        }
    }
}
