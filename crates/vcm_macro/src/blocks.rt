//! The blocks of a macro's body.

ghost use Rattle.std.specs.Prelude.{◌≡◌};
ghost use Rattle.vcm_macro.specs.Walk.{is_in_block};

use std::alloc::{AllocError, Global};
use std::marker::Model;
use vcm_forms::Form;

/// A block that is open.
#[derive(Clone, Copy)]
pub(crate) enum Opener {
    /// The first block of an `IF`.
    If,
    /// The second one.
    Else,
    /// That of a `DO`.
    Do,
    /// That of a `MEAS`.
    Meas,
    /// A `SELECT` that has had no `DFTCAS`, and none of whose blocks is open.
    Select,
    /// A `SELECT` behind the block of its `DFTCAS`.
    Last,
    /// A block of a `SELECT`.
    InCase,
}

/// The blocks that are open. Contracts see the innermost first.
#[derive(Drop)]
pub(crate) struct Blocks {
    openers: Vec<Opener>,
}

impl Model for Blocks {
    ghost use Rattle.std.specs.Prelude.{List, reverse};
    ghost use Rattle.vcm_macro.specs.declared.blocks.Opener.{Opener};

    ghost Value = { List Opener };

    ghost view = { λ b. reverse b.openers.items };
}

/// Whether a statement stands in one of the blocks where a SELECT is open.
pub(crate) fn is_in_block(form: &Form) -> bool
    ensures { result ≡ is_in_block form.now }
{
    match form {
        Form::Declaration(_, _) | Form::Call(_, _) => true,
        _ => form.is_counted(),
    }
}

impl Blocks {
    ghost use Rattle.std.specs.Prelude.{◌≡◌, [], OnOk};
    ghost use Rattle.vcm_macro.specs.Rules.{blocks_behind, takes_else, takes_endif, takes_enddo, takes_endmes, takes_case, takes_endcas, is_choosing, takes_endmac, unbalances};

    /// None.
    pub(crate) fn new(alloc: Global) -> Blocks
        ensures { result ≡ [] }
    {
        Blocks {
            openers: Vec::new(alloc),
        }
    }

    // Whether ELSE goes on with the innermost block.
    fn takes_else(&self) -> bool
        ensures { result ≡ takes_else self.now }
    {
        matches!(self.openers.last(), Some(Opener::If))
    }

    // Whether ENDIF ends it.
    fn takes_endif(&self) -> bool
        ensures { result ≡ takes_endif self.now }
    {
        matches!(self.openers.last(), Some(Opener::If | Opener::Else))
    }

    // Whether ENDDO does.
    fn takes_enddo(&self) -> bool
        ensures { result ≡ takes_enddo self.now }
    {
        matches!(self.openers.last(), Some(Opener::Do))
    }

    // Whether ENDMES does.
    fn takes_endmes(&self) -> bool
        ensures { result ≡ takes_endmes self.now }
    {
        matches!(self.openers.last(), Some(Opener::Meas))
    }

    // Whether CASE or DFTCAS begins a block of the innermost SELECT.
    fn takes_case(&self) -> bool
        ensures { result ≡ takes_case self.now }
    {
        matches!(self.openers.last(), Some(Opener::Select))
    }

    // Whether ENDCAS ends the innermost block.
    fn takes_endcas(&self) -> bool
        ensures { result ≡ takes_endcas self.now }
    {
        matches!(self.openers.last(), Some(Opener::InCase))
    }

    // Whether a SELECT is open, and none of its blocks.
    fn is_choosing(&self) -> bool
        ensures { result ≡ is_choosing self.now }
    {
        matches!(self.openers.last(), Some(Opener::Select | Opener::Last))
    }

    // Whether ENDMAC may stand here.
    fn takes_endmac(&self) -> bool
        ensures { result ≡ takes_endmac self.now }
    {
        self.openers.is_empty()
    }

    /// Whether a statement begins, goes on with or ends a block that isn't the innermost one, ENDMAC comes before one is ended, or a statement
    /// stands in a SELECT outside its blocks.
    pub(crate) fn unbalances(&self, form: &Form) -> bool
        ensures { result ≡ unbalances self.now form.now }
    {
        match form {
            Form::Otherwise => !self.takes_else(),
            Form::TestEnd => !self.takes_endif(),
            Form::RepeatEnd => !self.takes_enddo(),
            Form::MeasureEnd => !self.takes_endmes(),
            Form::MacroEnd => !self.takes_endmac(),
            Form::Case(_) => !self.takes_case(),
            Form::Default => !self.takes_case(),
            Form::CaseEnd => !self.takes_endcas(),
            Form::ChooseEnd => !self.is_choosing(),
            _ => self.is_choosing() && is_in_block(form),
        }
    }

    /// Takes one more statement.
    pub(crate) fn take(&mut self, form: &Form) -> Result<(), AllocError>
        ensures { OnOk result (self.new ≡ blocks_behind self.old form.now) }
    {
        match form {
            Form::Test(_) => {
                self.openers.push(Opener::If)?;
                Ok(())
            }
            Form::Otherwise => {
                self.openers.pop();
                self.openers.push(Opener::Else)?;
                Ok(())
            }
            Form::Repeat(_) => {
                self.openers.push(Opener::Do)?;
                Ok(())
            }
            Form::Measure(_) => {
                self.openers.push(Opener::Meas)?;
                Ok(())
            }
            Form::Choose(_) => {
                self.openers.push(Opener::Select)?;
                Ok(())
            }
            Form::Case(_) => {
                self.openers.push(Opener::InCase)?;
                Ok(())
            }
            Form::Default => {
                self.openers.pop();
                self.openers.push(Opener::Last)?;
                self.openers.push(Opener::InCase)?;
                Ok(())
            }
            Form::TestEnd | Form::RepeatEnd | Form::MeasureEnd | Form::CaseEnd | Form::ChooseEnd =>
                {
                    self.openers.pop();
                    Ok(())
                }
            _ => Ok(()),
        }
    }
}
