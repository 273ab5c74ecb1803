//! Public calls that no command makes, each once.

use std::alloc::Global;
use vcm_code::Op;
use vcm_image::{fits, read};
use vcm_loader::load;
use vcm_spec::Simple;
use vcm_test_tools::MOVE;

// Whether the code that bytes are read as fits, with two statements.
fn is_read(alloc: Global, bytes: &[u8]) -> bool {
    match read(alloc, bytes) {
        Ok(code) => fits(&code) && code.statements.len() == 2,
        Err(_) => false,
    }
}

#[test]
fn an_image_is_read_as_a_code(rt: HostRuntime) {
    assert!(rt; is_read(rt.alloc(), &MOVE));
}

// The value of the third expression of the first statement, if it is a move.
fn height(alloc: Global, bytes: &[u8]) -> Option<i64> {
    let loaded = load(alloc, bytes).ok()?;
    if loaded.statement_count() == 0 || loaded.variable_count() != 0 {
        return None;
    }
    let first = loaded.statement(0);
    match &first.op {
        Op::Plain(Simple::Goto(_, _, _)) => loaded.value(0, 2, &[]).ok(),
        _ => None,
    }
}

#[test]
fn the_value_of_an_expression(rt: HostRuntime) {
    assert!(rt; height(rt.alloc(), &MOVE) == Some(50_000));
}
