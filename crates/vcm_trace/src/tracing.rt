//! The trace and the measured points of a run.

ghost use Rattle.vcm_trace.specs.Traces.{trace_rows};
ghost use Rattle.vcm_trace.specs.Points.{point_rows};

use crate::calls::TellsCalls;
use crate::framed::Frames;
use crate::lines::{write_open, write_step};
use crate::points::{point_heading, write_point_row};
use crate::rows::WritesRows;
use std::io::Write;
use vcm_fields::BorrowedStatement;
use vcm_num::{WriteFault, write_all};
use vcm_state::World;

/// The trace of a run: a header, a line for each step, and, where it has not stopped, one more.
#[derive(Clone, Copy)]
pub struct TraceRows;

impl<W: Write> WritesRows<W> for TraceRows {
    ghost Rows = { λ s. trace_rows };

    fn write_before(&self, writer: &mut W) -> Result<(), WriteFault> {
        write_all(writer, b"step,statement,line,word,x,y,z,done\n")
    }

    fn write_row(
        &self,
        _frames: &Frames,
        count: u64,
        number: u32,
        statement: &BorrowedStatement<'_>,
        world: &World,
        next: u32,
        writer: &mut W,
    ) -> Result<(), WriteFault> {
        write_step(count, number, statement, world, next, writer)
    }

    fn write_open(
        &self,
        count: u64,
        next: u32,
        line: u32,
        world: &World,
        writer: &mut W,
    ) -> Result<(), WriteFault> {
        write_open(count, next, line, world, writer)
    }
}

/// The points that a run measures: a header, and a row for each as it is touched, with its nominal and its actual place and its direction in part
/// coordinates, in millimetres, and how far it lies off where that can be told; where it is wanted, with its place and its direction in machine coordinates too; and with
/// the CALLs that its statement comes from.
#[derive(Clone, Copy)]
pub struct PointRows<'a, C> {
    pub is_machine: bool,
    pub calls: &'a C,
}

impl<W: Write, C: TellsCalls<W>> WritesRows<W> for PointRows<'_, C> {
    ghost Rows = { λ s. point_rows s.is_machine (C.Calls s.calls.now) };

    fn write_before(&self, writer: &mut W) -> Result<(), WriteFault> {
        write_all(writer, point_heading(self.is_machine))
    }

    fn write_row(
        &self,
        frames: &Frames,
        count: u64,
        number: u32,
        statement: &BorrowedStatement<'_>,
        world: &World,
        _next: u32,
        writer: &mut W,
    ) -> Result<(), WriteFault> {
        write_point_row(
            self.is_machine,
            self.calls,
            frames,
            count,
            number,
            statement,
            world,
            writer,
        )
    }

    fn write_open(
        &self,
        _count: u64,
        _next: u32,
        _line: u32,
        _world: &World,
        _writer: &mut W,
    ) -> Result<(), WriteFault> {
        Ok(())
    }
}
