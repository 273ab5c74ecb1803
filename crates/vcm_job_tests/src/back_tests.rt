//! Steps back don't run from the start.

ghost use Rattle.std.specs.Prelude.{◌≡◌};

use std::alloc::Global;
use std::cell::Cell;
use vcm_debug::{Command, Count, Session};
use vcm_loader::{Loaded, load};
use vcm_motion::{Blocks, Face, Part};
use vcm_num::{Axis, Point};
use vcm_part::read_part;
use vcm_spec::{Bounds, Hit};
use vcm_test_tools::{BOUNDS, ONE_BLOCK, image_of, joined};

// A workpiece that counts the moves that it is asked about.
#[derive(Clone, Copy)]
struct Counting<'a> {
    blocks: Blocks<'a>,
    moves: &'a Cell<u32>,
}

impl<'a> Part for Counting<'a> {
    ghost part = { λ c. ⟦<Blocks<'a> as Part>⟧.part c.blocks };

    ghost valid = { λ c. c.blocks.valid };

    fn bounds(&self) -> Bounds {
        self.blocks.bounds()
    }

    fn inside(&self, at: Point) -> bool {
        self.blocks.inside(at)
    }

    fn first_hit(&self, from: Point, to: Point) -> Option<Hit> {
        self.moves.set(self.moves.get().saturating_add(1));
        self.blocks.first_hit(from, to)
    }

    fn first_face(&self, from: Point, toward: Axis, length: u32) -> Option<Face> {
        self.blocks.first_face(from, toward, length)
    }
}

// A loop of moves.
const MOVES: &str = "DECL/INTGR,I\nDO/I,1,100000\nGOTO/20,20,50\nENDDO\n";

// How many moves the workpiece is asked about when a session goes back so many of 5,000 steps.
fn moves_of(
    alloc: Global,
    session: &mut Session<'_, Counting<'_>>,
    moves: &Cell<u32>,
    back: u64,
) -> Option<u32>
    requires { session.old.count ≡ 0 }
{
    let Ok(steps) = Count::new(5000) else {
        return None;
    };
    session.command(alloc, &Command::Step(steps)).ok()?;
    moves.set(0);
    let Ok(back) = Count::new(back) else {
        return None;
    };
    session.command(alloc, &Command::Back(back)).ok()?;
    Some(moves.get())
}

// The same of a new session on what was loaded.
fn moves_on(alloc: Global, loaded: &Loaded<'_>, part: &Counting<'_>, back: u64) -> Option<u32> {
    let Ok(mut session) = Session::new(alloc, loaded, part) else {
        return None;
    };
    moves_of(alloc, &mut session, part.moves, back)
}

// The same on the program of moves, beside one block.
fn moves_of_back(alloc: Global, back: u64) -> Option<u32> {
    let file = joined(alloc, &[BOUNDS, ONE_BLOCK])?;
    let data = read_part(alloc, file.as_bytes()).ok()?;
    let moves = Cell::new(0);
    let part = Counting {
        blocks: Blocks::new(&data),
        moves: &moves,
    };
    let image = image_of(alloc, MOVES)?;
    let loaded = load(alloc, &image).ok()?;
    moves_on(alloc, &loaded, &part, back)
}

// Whether so many steps back ask about few moves.
fn is_short(alloc: Global, back: u64) -> bool {
    match moves_of_back(alloc, back) {
        Some(moves) => moves <= 500,
        None => false,
    }
}

#[test]
fn back_does_not_run_from_the_start(rt: HostRuntime) {
    let alloc = rt.alloc();
    assert!(rt; is_short(alloc, 1) && is_short(alloc, 100) && is_short(alloc, 1000));
}
