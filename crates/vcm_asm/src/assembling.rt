//! The assembler.

ghost use Rattle.std.specs.Prelude.{IfOk};
ghost use Rattle.vcm_code.specs.Valid.{IsValid};
ghost use Rattle.vcm_code.specs.Ranges.{IsInRange};
ghost use Rattle.vcm_asm.specs.Simulation.{IsAssembled};

use crate::emit::emit_block;
use crate::emitted::Emitted;
use crate::marking::mark_block;
use crate::numbers::Numbers;
use std::alloc::Global;
use vcm_code::{Code, version_for};
use vcm_num::NoMemory;
use vcm_program::Accepted;

/// The statement code of an accepted program. It does, on each workpiece and after any number of steps, what the program does; it is valid, and
/// its fields are in the ranges of an image.
///
/// Errors: want of memory.
pub fn assemble(alloc: Global, program: &Accepted) -> Result<Code, NoMemory>
    ensures assembled { IfOk result (λ c. IsAssembled program.now.program program.now.tables c) }
    ensures valid { IfOk result (λ c. IsValid c) }
    ensures in_range { IfOk result (λ c. IsInRange c) }
{
    let tree = program.tree();
    let mut numbers = Numbers::new(alloc);
    mark_block(&mut numbers, tree, 0)?;
    let mut code = Emitted::with_capacity(alloc, program.count())?;
    emit_block(alloc, &mut code, &numbers, tree, 0)?;
    let tables = program.tables(alloc)?;
    let statements = code.into_statements();
    let version = version_for(statements.as_slice());
    Ok(Code {
        version,
        tables,
        statements,
    })
}
