//! What has been expanded.

ghost use Rattle.std.specs.Prelude.{◌≡◌, ◌≤◌, ◌∷◌, ◌||◌, [], suc, nat_lt, true, false, OnOk, IfOk, IfErr};
ghost use Rattle.vcm_lines.specs.Fault.{NoMemoryOr};
ghost use Rattle.vcm_lines.specs.declared.fault.FaultCode.{FaultCode};
ghost use Rattle.vcm_macro.specs.Walk.{Stands};
ghost use Rattle.vcm_macro.specs.Rules.{is_full};
ghost use Rattle.vcm_macro.specs.inner.Expanding.{Walked, TellsFirst, stands};

use crate::kept::is_kept;
use crate::placed::Placed;
use std::alloc::{AllocError, Global};
use std::marker::Model;
use vcm_forms::Statement;
use vcm_lines::{FaultCode, SourceFault};
use vcm_substitution::{Bindings, are_small, put_form};

/// The most that may count in an expanded program.
pub(crate) const MOST: u32 = vcm_num::MOST_STATEMENTS as u32;

/// The deepest that calls may nest.
const DEEPEST: u32 = vcm_num::DEEPEST_CALLS as u32;

/// What has been expanded. Contracts see it as a `Done`.
#[derive(Drop)]
pub(crate) struct Expansion {
    placed: Vec<Placed>,
    count: u32,
    calls: u32,
}

impl Model for Expansion {
    ghost use Rattle.std.specs.Prelude.{◌≤◌, []};
    ghost use Rattle.std.specs.Coded.{codes};
    ghost use Rattle.vcm_macro.specs.inner.Expanding.{Done};
    ghost use Rattle.vcm_macro.specs.contracts.placed.Placed as stands;

    ghost Value = { Done };

    ghost coded = { Prim.hlevel (codes, stands.the_row.coded) };

    ghost view = { λ e. record { placed = e.placed.items; count = e.count; calls = e.calls } };

    ghost invariant = { λ e. (e.calls ≤ e.count) × (e.count ≤ 20000) };
}

// The refusal of a program that becomes too long.
fn too_long(line: u32) -> SourceFault
    ensures { result ≡ record { code = FaultCode.TooLong; line = line } }
{
    SourceFault {
        code: FaultCode::TooLong,
        line,
    }
}

impl Expansion {
    /// Nothing yet, and memory for so many statements.
    pub(crate) fn new(alloc: Global, statements: usize) -> Result<Expansion, AllocError>
        ensures { IfOk result (λ e. e ≡ record { placed = []; count = 0; calls = 0 }) }
    {
        let placed = Vec::with_capacity(alloc, statements)?;
        Ok(Expansion {
            placed,
            count: 0,
            calls: 0,
        })
    }

    /// The expanded statements.
    pub(crate) fn into_placed(self) -> Vec<Placed>
        ensures all { result.items ≡ self.placed }
        ensures few { self.count ≤ 20000 }
    {
        self.placed
    }

    /// How many calls were carried out.
    pub(crate) fn calls(&self) -> u32
        ensures { result ≡ self.now.calls }
    {
        self.calls
    }

    /// One more statement that counts.
    fn count_statement(&mut self, line: u32) -> Result<(), SourceFault>
        ensures ok { OnOk result (self.new ≡ record { placed = self.old.placed; count = suc self.old.count; calls = self.old.calls }) }
        ensures room { OnOk result (is_full self.old.count ≡ false) }
        ensures fault { IfErr result (λ f. (f ≡ record { code = FaultCode.TooLong; line = line }) × (is_full self.old.count ≡ true)) }
    {
        if self.count >= MOST {
            return Err(too_long(line));
        }
        self.count += 1;
        Ok(())
    }

    /// One more call, and how deep calls are nested there.
    pub(crate) fn count_call(&mut self, line: u32, depth: u32) -> Result<(), SourceFault>
        ensures ok { OnOk result (self.new ≡ record { placed = self.old.placed; count = suc self.old.count; calls = suc self.old.calls }) }
        ensures room { OnOk result ((nat_lt 16 depth || is_full self.old.count) ≡ false) }
        ensures shallow { OnOk result (depth ≤ 16) }
        ensures fault { IfErr result (λ f. (f ≡ record { code = FaultCode.TooLong; line = line }) × ((nat_lt 16 depth || is_full self.old.count) ≡ true)) }
    {
        if depth > DEEPEST || self.count >= MOST {
            return Err(too_long(line));
        }
        self.count += 1;
        self.calls += 1;
        Ok(())
    }

    /// A statement outside macros that is no call.
    pub(crate) fn stand_written(&mut self, statement: Statement) -> Result<(), SourceFault>
        ensures ok { OnOk result (Walked self.old self.new (Stands 0 statement ∷ [])) }
        ensures fault { IfErr result (NoMemoryOr (TellsFirst self.old.count (Stands 0 statement ∷ []))) }
    {
        are_small(&statement.form);
        if !is_kept(&statement.form) {
            return Ok(());
        }
        self.count_statement(statement.line)?;
        self.placed.push(Placed {
            statement,
            expansion: 0,
        })?;
        Ok(())
    }

    /// A statement of a macro that is no call.
    pub(crate) fn stand(
        &mut self,
        alloc: Global,
        bindings: &Bindings<'_>,
        statement: &Statement,
    ) -> Result<(), SourceFault>
        ensures ok { OnOk result (Walked self.old self.new (stands bindings.now statement.now ∷ [])) }
        ensures fault { IfErr result (NoMemoryOr (TellsFirst self.old.count (stands bindings.now statement.now ∷ []))) }
    {
        let line = statement.line;
        if !is_kept(&statement.form) {
            return Ok(());
        }
        self.count_statement(line)?;
        let form = put_form(alloc, line, bindings, &statement.form)?;
        let expansion = bindings.expansion();
        let statement = Statement { line, form };
        self.placed.push(Placed {
            statement,
            expansion,
        })?;
        Ok(())
    }
}
