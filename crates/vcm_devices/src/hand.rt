//! The debugger at a terminal, on the standard devices.

use crate::talking::Voice;
use std::alloc::Global;
use std::io::{Read, Write};
use vcm_job::{DebugFault, Given, RunFault, Shows, read_all};
use vcm_loader::Loaded;
use vcm_part::PartData;
use vcm_program::Noticed;
use vcm_prompt::{Prompts, debug_by_hand, debug_whole};
use vcm_views::Why;

// Prompts on standard error, with a colour for stops where that is a terminal. The colour is no byte of a reply, so it stands in no file that the replies go to.
#[derive(Clone, Copy)]
struct Hand<'a, R: Eprint> {
    rt: &'a R,
    is_painted: bool,
    block_names: &'a [Vec<u8>],
}

impl<R: Eprint> Prompts for Hand<'_, R> {
    fn greet(&self) {
        let _ = eprintln!(self.rt;
            "help tells the commands; rlwrap vcm debug .. gives editing and a history"
        );
    }

    fn prompt(&self) {
        let _ = eprint!(self.rt; "(vcm) ");
    }

    fn alarm(&self) {
        if self.is_painted {
            let _ = eprint!(self.rt; "\x1b[1;31m");
        }
    }

    fn calm(&self) {
        if self.is_painted {
            let _ = eprint!(self.rt; "\x1b[0m");
        }
    }

    fn why<W: Write>(
        &self,
        alloc: Global,
        loaded: &Loaded<'_>,
        given: &Given,
        part: &PartData,
        steps: u64,
        writer: &mut W,
    ) -> Result<u8, RunFault> {
        let why = Why {
            block_names: self.block_names,
        };
        why.show(alloc, loaded, given, part, steps, writer)
    }
}

/// Answers the lines that are typed on standard input on the program or image that a reader gives, with a prompt before each.
pub(crate) fn debug_typed<R: Input + Eprint + AllocGlobal, I: Read, W: Write>(
    rt: &R,
    is_painted: bool,
    part: &PartData,
    block_names: &[Vec<u8>],
    reader: &mut I,
    out: &mut W,
) -> Result<Vec<Noticed>, DebugFault> {
    let input = read_all(rt.alloc(), reader)?;
    let hand = Hand {
        rt,
        is_painted,
        block_names,
    };
    debug_by_hand(rt.alloc(), part, input, &mut rt.reader(), out, &hand)
}

/// Answers the lines of standard input on what a producer's text is put as, with a prompt before each where they are typed.
pub(crate) fn debug_put<R: Input + Eprint + AllocGlobal, W: Write>(
    rt: &R,
    voice: Voice,
    part: &PartData,
    given: &Given,
    text: &[u8],
    out: &mut W,
) -> Result<(), DebugFault> {
    let hand = Hand {
        rt,
        is_painted: voice.is_painted,
        block_names: &[],
    };
    let prompts = if voice.is_by_hand { Some(&hand) } else { None };
    debug_whole(
        rt.alloc(),
        part,
        given,
        text,
        &mut rt.reader(),
        out,
        prompts,
    )
}
