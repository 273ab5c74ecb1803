//! What is wrong with a statement of an expanded program, behind those above it.

use crate::about::{About, Sort};
use crate::blocks::Blocks;
use crate::kinds::{Found, bad_type, unknown, wrong};
use crate::names::{Named, Names};
use crate::words::major;
use std::alloc::Global;
use vcm_expr::Expr;
use vcm_forms::{Coordinates, Form, Offset, Rounds, Target};
use vcm_items::{Name, VariableName};
use vcm_lines::FaultCode;
use vcm_macro::Placed;
use vcm_num::{Kind, NoMemory};

/// What statements leave behind them: their names, the blocks that are open, and whether the MEAS that is open has its PTMEAS.
#[derive(Drop)]
pub(crate) struct State {
    pub(crate) names: Names,
    pub(crate) blocks: Blocks,
    touched: bool,
}

/// Whether a statement may not stand in a MEAS.
pub(crate) fn is_barred(form: &Form) -> bool {
    match form {
        Form::Assignment(_, _) | Form::Say(_) | Form::Test(_) | Form::Repeat(_) => true,
        Form::Mark(_) | Form::Leap(_) | Form::Feature(_, _, _) | Form::Measure(_) => true,
        Form::Configure(_, _) | Form::Shift(_, _) | Form::Rotation(_, _, _) => true,
        Form::Restore(_) | Form::Query(_, _, _, _) | Form::Report(_, _) => true,
        Form::Choose(_) => true,
        _ => false,
    }
}

// How many PTMEAS stand here and behind, up to the end of their MEAS.
fn touches_ahead(rest: &[Placed]) -> usize {
    let mut count: usize = 0;
    for placed in rest {
        match &placed.statement.form {
            Form::Touch(_, _) => count = count.saturating_add(1),
            Form::MeasureEnd | Form::Ending | Form::Measure(_) => return count,
            _ => {}
        }
    }
    count
}

// A fault of a MEAS.
fn bad_body(about: About) -> Option<Found> {
    Some(Found {
        code: FaultCode::MeasBody,
        about,
    })
}

// The kind of a variable that has to be of this one.
fn target_fault(
    alloc: Global,
    names: &Names,
    target: &Target,
    wanted: Kind,
) -> Result<Option<Found>, NoMemory> {
    let name = &target.name;
    match names.variable(name, target.expansion) {
        None => {
            let about = names.missing(alloc, Sort::Variable, name, target.expansion)?;
            Ok(Some(unknown(about)))
        }
        Some(kind) if kind != wanted => Ok(Some(bad_type(About::Place(kind, wanted)))),
        Some(_) => Ok(None),
    }
}

impl State {
    /// Nothing stands above.
    pub(crate) fn new(alloc: Global) -> State {
        State {
            names: Names::new(alloc),
            blocks: Blocks::new(alloc),
            touched: false,
        }
    }

    // One more name.
    fn add(
        &mut self,
        sort: Sort,
        name: &Name,
        kind: Kind,
        placed: &Placed,
    ) -> Result<(), NoMemory> {
        let opener = match self.blocks.innermost() {
            Some(open) => open.line,
            None => 0,
        };
        let block = self.blocks.id();
        self.names.add(Named {
            sort,
            name: name.copy(),
            expansion: placed.expansion,
            line: placed.statement.line,
            kind,
            block,
            opener,
        })
    }

    // The variables of a declaration.
    fn declare(
        &mut self,
        kind: Kind,
        names: &[VariableName],
        placed: &Placed,
    ) -> Result<(), NoMemory> {
        for name in names {
            self.add(Sort::Variable, name.name(), kind, placed)?;
        }
        Ok(())
    }

    /// Takes a statement that may stand here.
    pub(crate) fn take(&mut self, placed: &Placed) -> Result<(), NoMemory> {
        match &placed.statement.form {
            Form::Declaration(kind, names) => self.declare(*kind, names.as_slice(), placed),
            Form::Feature(name, _, _) => self.add(Sort::Feature, name, Kind::Int, placed),
            Form::Shift(name, _) | Form::Rotation(name, _, _) => {
                self.add(Sort::Frame, name, Kind::Int, placed)
            }
            Form::Mark(name) => self.add(Sort::Label, name, Kind::Int, placed),
            Form::Touch(_, _) => {
                self.touched = true;
                Ok(())
            }
            Form::Measure(_) => {
                self.touched = false;
                self.blocks
                    .take(&placed.statement.form, placed.statement.line)
            }
            form => self.blocks.take(form, placed.statement.line),
        }
    }

    // The leftmost fault of three lengths.
    fn lengths(&self, alloc: Global, place: &Coordinates) -> Result<Option<Found>, NoMemory> {
        if let Some(found) = wrong(alloc, &self.names, &place.x, Kind::Real)? {
            return Ok(Some(found));
        }
        if let Some(found) = wrong(alloc, &self.names, &place.y, Kind::Real)? {
            return Ok(Some(found));
        }
        wrong(alloc, &self.names, &place.z, Kind::Real)
    }

    // The leftmost fault of shifts.
    fn shifts(&self, alloc: Global, offsets: &[Offset]) -> Result<Option<Found>, NoMemory> {
        for offset in offsets {
            if let Some(found) = wrong(alloc, &self.names, &offset.length, Kind::Real)? {
                return Ok(Some(found));
            }
        }
        Ok(None)
    }

    // The leftmost fault of the words of DO.
    fn rounds(&self, alloc: Global, rounds: &Rounds) -> Result<Option<Found>, NoMemory> {
        if let Some(found) = target_fault(alloc, &self.names, &rounds.variable, Kind::Int)? {
            return Ok(Some(found));
        }
        if let Some(found) = wrong(alloc, &self.names, &rounds.initial, Kind::Int)? {
            return Ok(Some(found));
        }
        if let Some(found) = wrong(alloc, &self.names, &rounds.limit, Kind::Int)? {
            return Ok(Some(found));
        }
        match &rounds.increment {
            Some(increment) => wrong(alloc, &self.names, increment, Kind::Int),
            None => Ok(None),
        }
    }

    // The fault of an assignment.
    fn assignment(
        &self,
        alloc: Global,
        target: &Target,
        value: &Expr,
    ) -> Result<Option<Found>, NoMemory> {
        match self.names.variable(&target.name, target.expansion) {
            Some(kind) => wrong(alloc, &self.names, value, kind),
            None => target_fault(alloc, &self.names, target, Kind::Int),
        }
    }

    // A feature or a frame that has to stand above.
    fn known(&self, alloc: Global, sort: Sort, name: &Name) -> Result<Option<Found>, NoMemory> {
        if self.names.knows(sort, name) {
            return Ok(None);
        }
        let about = self.names.missing(alloc, sort, name, 0)?;
        Ok(Some(unknown(about)))
    }

    // The fault of OBTAIN.
    fn query(
        &self,
        alloc: Global,
        target: &Target,
        name: &Name,
    ) -> Result<Option<Found>, NoMemory> {
        match target_fault(alloc, &self.names, target, Kind::Real)? {
            Some(found) => Ok(Some(found)),
            None => self.known(alloc, Sort::Feature, name),
        }
    }

    // The fault of PTMEAS, which stands first among what is left.
    fn touch(
        &self,
        alloc: Global,
        place: &Coordinates,
        rest: &[Placed],
    ) -> Result<Option<Found>, NoMemory> {
        match self.blocks.measuring() {
            None => Ok(bad_body(About::Outside)),
            Some(open) if self.touched => {
                let count = touches_ahead(rest).saturating_add(1);
                Ok(bad_body(About::Touches(open.line, count)))
            }
            Some(_) => self.lengths(alloc, place),
        }
    }

    // The fault of ENDMES.
    fn measure_end(&self) -> Option<Found> {
        let open = self.blocks.measuring()?;
        if self.touched {
            None
        } else {
            bad_body(About::Touches(open.line, 0))
        }
    }

    // A name of this expansion that is declared already.
    fn twin(&self, sort: Sort, name: &Name, expansion: u32) -> Option<Found> {
        let named = self.names.find(sort, name, expansion)?;
        Some(Found {
            code: FaultCode::DuplicateName,
            about: About::Declared(sort, name.copy(), named.line),
        })
    }

    // The first name of a declaration that is declared already, in this line or above.
    fn twins(&self, names: &[VariableName], placed: &Placed) -> Option<Found> {
        let mut rest = names;
        'each: while let Some((name, others)) = rest.split_first() {
            if let Some(found) = self.twin(Sort::Variable, name.name(), placed.expansion) {
                return Some(found);
            }
            if has_name(others, name.name()) {
                return Some(Found {
                    code: FaultCode::DuplicateName,
                    about: About::Declared(
                        Sort::Variable,
                        name.name().copy(),
                        placed.statement.line,
                    ),
                });
            }
            rest = others;
        }
        None
    }

    // What is wrong with a statement that may stand in the blocks that are open.
    fn stated(
        &self,
        alloc: Global,
        placed: &Placed,
        rest: &[Placed],
    ) -> Result<Option<Found>, NoMemory> {
        let names = &self.names;
        match &placed.statement.form {
            Form::Declaration(_, declared) => Ok(self.twins(declared.as_slice(), placed)),
            Form::Assignment(target, value) => self.assignment(alloc, target, value),
            Form::Move(place) | Form::Feature(_, place, _) => self.lengths(alloc, place),
            Form::Test(e) => wrong(alloc, names, e, Kind::Bool),
            Form::Repeat(rounds) => self.rounds(alloc, rounds),
            Form::Mark(name) => Ok(self.twin(Sort::Label, name, placed.expansion)),
            Form::Measure(name) | Form::Report(_, name) => self.known(alloc, Sort::Feature, name),
            Form::Touch(place, _) => self.touch(alloc, place, rest),
            Form::MeasureEnd => Ok(self.measure_end()),
            Form::Configure(_, length) => wrong(alloc, names, length, Kind::Real),
            Form::Shift(_, offsets) => self.shifts(alloc, offsets.as_slice()),
            Form::Restore(name) => self.known(alloc, Sort::Frame, name),
            Form::Query(target, _, name, _) => self.query(alloc, target, name),
            Form::Choose(value) => wrong(alloc, names, value, Kind::Int),
            _ => Ok(None),
        }
    }

    /// What is wrong with the first statement of what is left.
    pub(crate) fn wrong(
        &self,
        alloc: Global,
        placed: &Placed,
        rest: &[Placed],
    ) -> Result<Option<Found>, NoMemory> {
        let form = &placed.statement.form;
        if let Some(open) = self.blocks.measuring() {
            if is_barred(form) {
                let about = About::Inside(major(form), open.block, open.line);
                return Ok(bad_body(about));
            }
        }
        if let Some(about) = self.blocks.about(form) {
            let code = FaultCode::Unbalanced;
            return Ok(Some(Found { code, about }));
        }
        self.stated(alloc, placed, rest)
    }
}

// Whether one of the names of a declaration is this.
fn has_name(names: &[VariableName], name: &Name) -> bool {
    for other in names {
        if other.name() == name {
            return true;
        }
    }
    false
}
