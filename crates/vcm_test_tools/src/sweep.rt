//! Calls under budgets of memory that grow until the call succeeds.

use crate::scarce::Scarce;
use std::alloc::Global;

/// What a call gave: the right answer, want of memory, or anything else.
#[derive(Clone, Copy, PartialEq, Eq)]
pub enum Told {
    Right,
    Short,
    Wrong,
}

/// What an answer tells.
pub fn answer(is_right: bool) -> Told {
    if is_right { Told::Right } else { Told::Wrong }
}

/// What a refusal tells.
pub fn refusal(is_want: bool) -> Told {
    if is_want { Told::Short } else { Told::Wrong }
}

// What a call tells under a budget.
fn under<F: Fn(Global) -> Told>(
    alloc: Global,
    scarce: &mut Scarce,
    budget: usize,
    call: &F,
) -> Option<Told>
    requires { F.IsAlwaysCallable call.now }
{
    scarce.leave(alloc, budget).ok()?;
    let told = call(alloc);
    scarce.ease();
    Some(told)
}

/// How many budgets, 16 bytes apart, were too small for a call, up to the first that was enough. None where the call gave anything else than
/// the right answer or want of memory, or didn't give the right answer when it was called again with ample memory, or where no budget was enough.
pub fn refusals<F: Fn(Global) -> Told>(alloc: Global, call: F) -> Option<u32>
    requires { F.IsAlwaysCallable call }
{
    let mut scarce = Scarce::new(alloc).ok()?;
    for short in 0..=6144u32 {
        match under(alloc, &mut scarce, short as usize * 16, &call)? {
            Told::Right => return Some(short),
            Told::Short if call(alloc) == Told::Right => {}
            _ => return None,
        }
    }
    None
}

/// Whether some budgets were too small, and at last one was enough.
pub fn is_refused(refusals: Option<u32>) -> bool {
    match refusals {
        Some(count) => count > 0,
        None => false,
    }
}

/// Whether each line of the loop of three is refused memory under one budget or another, and none under the first budget that is enough. A call
/// runs the loop under a budget, and gives how many steps were done: 1, 3 or 5 where memory was refused to a line, 8 at the end.
pub fn each_line_is_refused<F: Fn(&mut Scarce, usize) -> Option<u64>>(
    alloc: Global,
    call: F,
) -> Option<bool>
    requires { F.IsAlwaysCallable call }
{
    let mut scarce = Scarce::new(alloc).ok()?;
    let mut refused = [false; 3];
    for budget in 0..4096usize {
        match call(&mut scarce, budget * 16)? {
            1 => refused = [true, refused[1], refused[2]],
            3 => refused = [refused[0], true, refused[2]],
            5 => refused = [refused[0], refused[1], true],
            8 => return Some(refused == [true, true, true]),
            _ => return None,
        }
    }
    None
}
