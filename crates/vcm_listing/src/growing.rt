//! A code that is read line by line.

ghost use Rattle.std.specs.Prelude.{◌≡◌, ◌<◌, ◌==◌, ◌&&◌, Ok, Err, IfOk, IfErr, OnOk};
ghost use Rattle.vcm_words.specs.declared.row.Row.TheVariants as rows;
ghost use Rattle.vcm_words.specs.Listing.{added, empty};
ghost use Rattle.vcm_words.specs.inner.Failing.{FailsLine};

use std::alloc::Global;
use std::marker::Model;
use vcm_code::{Code, OwnedStatement, Version};
use vcm_items::{Name, Tables, Variable};
use vcm_num::{Items, MOST_NAMES, MOST_STATEMENTS, NoMemory};
use vcm_words::{BorrowedRow, BorrowedStatement, ListCode, Row};

/// The version, and the names and the statements of the lines so far. Contracts see them as a code.
#[derive(Drop)]
pub(crate) struct Growing {
    version: Version,
    variables: Items<Variable>,
    features: Items<Name>,
    frames: Items<Name>,
    statements: Items<OwnedStatement>,
}

impl Model for Growing {
    ghost use Rattle.vcm_code.specs.declared.code.Code.{Code as CodeOf};

    ghost Value = { CodeOf };

    ghost view = { λ g. record { version = g.version; tables = record { variables = g.variables; features = g.features; frames = g.frames }; statements = g.statements } };
}

impl Growing {
    /// A version, no names and no statements.
    pub(crate) fn new(alloc: Global, version: Version) -> Growing
        ensures { result ≡ empty version }
    {
        Growing {
            version,
            variables: Items::new(alloc),
            features: Items::new(alloc),
            frames: Items::new(alloc),
            statements: Items::new(alloc),
        }
    }

    /// The version.
    pub(crate) fn version(&self) -> Version
        ensures { result ≡ self.now.version }
    {
        self.version
    }

    // One more variable.
    #[tactic(auto, unfolding(vcm_words::specs::Listing::added))]
    fn add_variable(&mut self, index: u32, variable: &Variable) -> Result<(), ListCode>
        ensures ok { OnOk result (added self.old (rows.Variable index variable.now) ≡ Ok self.new) }
        ensures err { IfErr result (λ e. FailsLine e (added self.old (rows.Variable index variable.now))) }
    {
        let count = self.variables.len();
        if count >= MOST_NAMES {
            return Err(ListCode::BadNumber);
        }
        if index as usize != count {
            return Err(ListCode::OutOfOrder);
        }
        if self.features.len() > 0 || self.frames.len() > 0 || self.statements.len() > 0 {
            return Err(ListCode::OutOfOrder);
        }
        let name = variable.name().copy();
        let copy = Variable::new(name, variable.kind(), variable.expansion());
        self.variables.push(copy)?;
        Ok(())
    }

    // One more feature.
    #[tactic(auto, unfolding(vcm_words::specs::Listing::added))]
    fn add_feature(&mut self, index: u32, name: &Name) -> Result<(), ListCode>
        ensures ok { OnOk result (added self.old (rows.Feature index name.now) ≡ Ok self.new) }
        ensures err { IfErr result (λ e. FailsLine e (added self.old (rows.Feature index name.now))) }
    {
        let count = self.features.len();
        if count >= MOST_NAMES {
            return Err(ListCode::BadNumber);
        }
        if index as usize != count {
            return Err(ListCode::OutOfOrder);
        }
        if self.frames.len() > 0 || self.statements.len() > 0 {
            return Err(ListCode::OutOfOrder);
        }
        self.features.push(name.copy())?;
        Ok(())
    }

    // One more frame.
    #[tactic(auto, unfolding(vcm_words::specs::Listing::added))]
    fn add_frame(&mut self, index: u32, name: &Name) -> Result<(), ListCode>
        ensures ok { OnOk result (added self.old (rows.Frame index name.now) ≡ Ok self.new) }
        ensures err { IfErr result (λ e. FailsLine e (added self.old (rows.Frame index name.now))) }
    {
        let count = self.frames.len();
        if count >= MOST_NAMES {
            return Err(ListCode::BadNumber);
        }
        if index as usize != count {
            return Err(ListCode::OutOfOrder);
        }
        if self.statements.len() > 0 {
            return Err(ListCode::OutOfOrder);
        }
        self.frames.push(name.copy())?;
        Ok(())
    }

    // One more statement.
    #[tactic(auto, using(vcm_code::proofs::Copies::same_statement), unfolding(vcm_words::specs::Listing::added))]
    fn add_statement(
        &mut self,
        alloc: Global,
        number: u32,
        from: &BorrowedStatement<'_>,
    ) -> Result<(), ListCode>
        ensures ok { OnOk result (added self.old (rows.Numbered number from.now) ≡ Ok self.new) }
        ensures err { IfErr result (λ e. FailsLine e (added self.old (rows.Numbered number from.now))) }
    {
        let count = self.statements.len();
        if count >= MOST_STATEMENTS {
            return Err(ListCode::BadNumber);
        }
        if number as usize != count {
            return Err(ListCode::OutOfOrder);
        }
        self.statements.push(from.to_owned(alloc)?)?;
        Ok(())
    }

    /// One more line behind the first.
    ///
    /// # Errors
    ///
    /// BadNumber where its table is full, OutOfOrder where it doesn't stand where its index or its number belongs. Want of memory.
    #[tactic(auto, unfolding(vcm_words::specs::Listing::added))]
    pub(crate) fn add(&mut self, alloc: Global, row: &BorrowedRow<'_>) -> Result<(), ListCode>
        ensures ok { OnOk result (added self.old row.now ≡ Ok self.new) }
        ensures err { IfErr result (λ e. FailsLine e (added self.old row.now)) }
    {
        match row {
            Row::Head(_) => Err(ListCode::OutOfOrder),
            Row::Variable(index, variable) => self.add_variable(*index, variable),
            Row::Feature(index, name) => self.add_feature(*index, name),
            Row::Frame(index, name) => self.add_frame(*index, name),
            Row::Numbered(number, from) => self.add_statement(alloc, *number, from),
        }
    }

    /// The code.
    ///
    /// # Errors
    ///
    /// Want of memory.
    pub(crate) fn code(self, alloc: Global) -> Result<Code, NoMemory>
        ensures { IfOk result (λ c. c ≡ self) }
    {
        let tables = Tables::new(alloc, self.variables, self.features, self.frames)?;
        Ok(Code {
            version: self.version,
            tables,
            statements: self.statements,
        })
    }
}
