//! What is noted of a run that goes on behind contacts.

ghost use Rattle.std.specs.Prelude.{◌≡◌, ◌<◌, ◌++◌, [], ◌∷◌, length, map, replicate, slice_get, option_to_list, OnOk};
ghost use Rattle.vcm_contacts.specs.Noted.{seen, found_at, rounds_at};

use crate::contact::{Contact, FoundContact};
use std::alloc::Global;
use vcm_backtrace::{Source, Standing, backtrace_of};
use vcm_cause::{MOST_LOOPS, Rounds, count_round};
use vcm_loader::Loaded;
use vcm_num::NoMemory;
use vcm_state::World;

/// What is noted so far: the contacts, and how many rounds each loop has begun.
#[derive(Drop)]
pub struct Notes {
    pub found: Vec<FoundContact>,
    pub rounds: Rounds,
}

/// Nothing is noted at the start of a run.
pub fn no_notes(alloc: Global) -> Notes
    ensures none { result.found.items ≡ [] }
    ensures rounds { result.rounds ≡ replicate 32 0 }
{
    Notes {
        found: Vec::new(alloc),
        rounds: [0; MOST_LOOPS],
    }
}

// Notes a contact, behind which the run stands here.
fn note_contact(
    alloc: Global,
    source: &Option<Source<'_>>,
    loaded: &Loaded<'_>,
    world: &World,
    contact: Contact,
    notes: &mut Notes,
) -> Result<(), NoMemory>
    ensures found { OnOk result (map seen notes.new.found.items ≡ map seen notes.old.found.items
        ++ found_at source.now loaded.now.statements world.now.tables world.now.state.variables notes.old.rounds contact ∷ []) }
    ensures rounds { notes.new.rounds ≡ notes.old.rounds }
{
    let standing = Standing {
        tables: world.tables(),
        variables: world.variables(),
        rounds: &notes.rounds,
    };
    let backtrace = backtrace_of(alloc, source, loaded, &standing, contact.number)?;
    notes.found.push(FoundContact { contact, backtrace })?;
    Ok(())
}

/// Notes a step: the rounds of loops, and its contact, if there is one. The statement has this number, and the state and the number of the next statement are those behind it.
///
/// Errors: want of memory.
pub fn note_step(
    alloc: Global,
    source: &Option<Source<'_>>,
    loaded: &Loaded<'_>,
    number: u32,
    world: &World,
    next: u32,
    met: Option<Contact>,
    notes: &mut Notes,
) -> Result<(), NoMemory>
    requires { number < length loaded.now.statements }
    ensures rounds { notes.new.rounds ≡ rounds_at notes.old.rounds number next world.now.state.stop (slice_get loaded.now.statements number) }
    ensures found { OnOk result (map seen notes.new.found.items ≡ map seen notes.old.found.items
        ++ map (found_at source.now loaded.now.statements world.now.tables world.now.state.variables notes.new.rounds) (option_to_list met)) }
{
    let statement = loaded.statement(number as usize);
    count_round(&mut notes.rounds, &statement.op, number, next, world.stop());
    match met {
        Some(contact) => note_contact(alloc, source, loaded, world, contact, notes),
        None => Ok(()),
    }
}
