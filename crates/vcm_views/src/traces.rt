//! The trace and the measured points as views.

ghost use Rattle.vcm_views.specs.Views.{trace_view, points_view};

use crate::sources::source_in;
use crate::unfinished::cut_short;
use std::alloc::Global;
use std::io::Write;
use vcm_backtrace::CallFields;
use vcm_job::{Given, RunFault, Shows, status_of};
use vcm_loader::Loaded;
use vcm_motion::AnyPart;
use vcm_part::PartData;
use vcm_trace::{PointRows, TraceRows, write_rows};

/// What each step did, a line for each.
#[derive(Clone, Copy)]
pub struct Trace;

impl<W: Write> Shows<W> for Trace {
    ghost RunView = { λ s. trace_view };

    fn show(
        &self,
        alloc: Global,
        loaded: &Loaded<'_>,
        _given: &Given,
        part: &PartData,
        steps: u64,
        writer: &mut W,
    ) -> Result<u8, RunFault> {
        let Ok(workpiece) = AnyPart::of(alloc, part) else {
            return Err(RunFault::NoMemory);
        };
        match write_rows(alloc, loaded, &workpiece, steps, &TraceRows, writer) {
            Ok(stop) => Ok(status_of(stop)),
            Err(fault) => Err(cut_short(fault)),
        }
    }
}

/// The points that are measured, a line for each, without machine coordinates or with them.
#[derive(Clone, Copy)]
pub struct Points {
    pub is_machine: bool,
}

impl<W: Write> Shows<W> for Points {
    ghost RunView = { λ s. points_view s.is_machine };

    fn show(
        &self,
        alloc: Global,
        loaded: &Loaded<'_>,
        given: &Given,
        part: &PartData,
        steps: u64,
        writer: &mut W,
    ) -> Result<u8, RunFault> {
        let Ok(workpiece) = AnyPart::of(alloc, part) else {
            return Err(RunFault::NoMemory);
        };
        let Ok(source) = source_in(alloc, given) else {
            return Err(RunFault::NoMemory);
        };
        let rows = PointRows {
            is_machine: self.is_machine,
            calls: &CallFields { source: &source },
        };
        match write_rows(alloc, loaded, &workpiece, steps, &rows, writer) {
            Ok(stop) => Ok(status_of(stop)),
            Err(fault) => Err(cut_short(fault)),
        }
    }
}
