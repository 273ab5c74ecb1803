//! A session whose copies take the memory that its run wants: they give way, which single growths that are refused don't show.

ghost use Rattle.std.specs.Prelude.{◌≡◌};

use std::alloc::Global;
use vcm_debug::{Command, Count, Session};
use vcm_loader::Loaded;
use vcm_motion::Part;
use vcm_test_tools::{Scarce, beside_block};

/// A loop that prints 160 lines, in 322 steps. The 20 copies of a session on the way have 1,680 lines, which take some 94,000 bytes.
const LONG: &str = "DECL/INTGR,I\nDO/I,1,160\nTEXT/OPER,'a line of it'\nENDDO\n";

/// How many bytes are left for the run.
const BUDGET: usize = 65_536;

// Whether a session comes to the end under the budget.
fn ends<P: Part>(alloc: Global, scarce: &mut Scarce, session: &mut Session<'_, P>) -> Option<bool>
    requires { session.old.count ≡ 0 }
{
    let steps = Count::new(1000).ok()?;
    scarce.leave(alloc, BUDGET).ok()?;
    let ran = session.command(alloc, &Command::Run(steps));
    scarce.ease();
    Some(ran.is_ok())
}

// The same of a new session on what was loaded.
fn new_ends<P: Part>(alloc: Global, loaded: &Loaded<'_>, part: &P) -> Option<bool> {
    let mut scarce = Scarce::new(alloc).ok()?;
    let Ok(mut session) = Session::new(alloc, loaded, part) else {
        return None;
    };
    ends(alloc, &mut scarce, &mut session)
}

// The same of the long loop beside one block.
fn long_loop_ends(alloc: Global) -> bool {
    beside_block(alloc, LONG, |loaded, part| new_ends(alloc, loaded, part)) == Some(true)
}

#[test]
fn copies_give_way_to_the_run(rt: HostRuntime) {
    assert!(rt; long_loop_ends(rt.alloc()));
}
