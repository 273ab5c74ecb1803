//! The views of a run that commands print.

use std::alloc::Global;
use std::io::{Read, Write};
use vcm_job::{Done, Given, RunFault, given_of, read_all, show_given};
use vcm_part::PartData;
use vcm_views::{
    AllContacts, Clearance, FirstContacts, Picture, Points, SheetView, TipMargin, Trace, Values,
    Why,
};

/// A view of a run that a command prints.
#[derive(Clone, Copy)]
pub enum View<'a> {
    Result,
    Why(Why<'a>),
    Contacts(AllContacts<'a>),
    Trace,
    Margin,
    Points(Points),
    Clearance(Clearance<'a>),
    First(FirstContacts<'a>),
    Picture(Picture<'a>),
    Sheet(SheetView<'a>),
}

/// Writes a view of a run of what was given.
pub fn write_given<W: Write>(
    alloc: Global,
    view: &View<'_>,
    given: Given,
    part: &PartData,
    steps: u64,
    writer: &mut W,
) -> Result<Done, RunFault> {
    match view {
        View::Result => show_given(alloc, &Values { places: &[] }, given, part, steps, writer),
        View::Why(view) => show_given(alloc, view, given, part, steps, writer),
        View::Contacts(view) => show_given(alloc, view, given, part, steps, writer),
        View::Trace => show_given(alloc, &Trace, given, part, steps, writer),
        View::Margin => show_given(alloc, &TipMargin, given, part, steps, writer),
        View::Points(view) => show_given(alloc, view, given, part, steps, writer),
        View::Clearance(view) => show_given(alloc, view, given, part, steps, writer),
        View::First(view) => show_given(alloc, view, given, part, steps, writer),
        View::Picture(view) => show_given(alloc, view, given, part, steps, writer),
        View::Sheet(view) => show_given(alloc, view, given, part, steps, writer),
    }
}

/// Writes a view of a run of the program or image that a reader gives.
pub(crate) fn write_view<I: Read, W: Write>(
    alloc: Global,
    view: &View<'_>,
    part: &PartData,
    reader: &mut I,
    steps: u64,
    writer: &mut W,
) -> Result<Done, RunFault> {
    let input = read_all(alloc, reader)?;
    match given_of(alloc, input) {
        Ok(given) => write_given(alloc, view, given, part, steps, writer),
        Err(fault) => Err(fault),
    }
}
