//! A valid image, borrowed.

ghost use Rattle.std.specs.Prelude.{◌≡◌, ◌<◌, Some, List, IfOk, length, slice_get};
ghost use Rattle.vcm_num.specs.declared.number.Kind.{Kind as KindOf};
ghost use Rattle.vcm_spec.specs.declared.expression.Item.{Item};
ghost use Rattle.vcm_spec.specs.Expression.{HasKind};
ghost use Rattle.vcm_spec.specs.Value.{items_value};
ghost use Rattle.vcm_spec.specs.Fitting.{kinds as kinds_of};
ghost use Rattle.vcm_items.specs.Slots.{IsTruth, SlotsFit};
ghost use Rattle.vcm_code.specs.Valid.{IsValid};
ghost use Rattle.vcm_code.specs.Code.{CodeStatement};
ghost use Rattle.vcm_fields.specs.Readers.{Begins, line_at, operands_at};
ghost use Rattle.vcm_image.specs.Whole.{FitsImage};
ghost use Rattle.vcm_loader.specs.Expressions.{expressions};

use crate::places::expression;
use crate::walking;
use std::alloc::Global;
use std::marker::Model;
use vcm_code::{Version, Word};
use vcm_fields::{BorrowedStatement, BorrowedVariable, TextSlice, known_long, known_word};
use vcm_image::Scanned;
use vcm_items::Tables;
use vcm_num::{Fault, NoMemory};

/// A valid image. It borrows the bytes, and keeps where each variable, name and statement begins; no statement is kept decoded. Contracts see it as
/// its code. Names that its readers hand out live as long as the bytes, as do the items and texts of a statement.
#[derive(Drop)]
pub struct Loaded<'a> {
    scanned: Scanned<'a>,
}

impl<'a> Model for Loaded<'a> {
    ghost use Rattle.vcm_code.specs.declared.code.Code.{Code};

    ghost Value = { Code };

    ghost use Rattle.vcm_code.specs.Valid.{IsValid};
    ghost use Rattle.vcm_image.specs.Whole.{FitsImage};

    ghost view = { λ l. l.scanned };

    ghost invariant = { λ l. FitsImage l.scanned × IsValid l.scanned };
}

impl<'a> Loaded<'a> {
    /// A valid image.
    pub(crate) fn new(scanned: Scanned<'a>) -> Loaded<'a>
        requires fits { FitsImage scanned }
        requires valid { IsValid scanned }
        ensures { result ≡ scanned.entry }
    {
        Loaded { scanned }
    }

    /// Its version.
    pub fn version(&self) -> Version
        ensures { result ≡ self.now.version }
    {
        self.scanned.version()
    }

    /// How many variables there are.
    pub fn variable_count(&self) -> usize
        ensures { result ≡ length self.now.tables.variables }
    {
        self.scanned.variable_count()
    }

    /// A variable, whose name is a slice of the image.
    pub fn variable(&self, n: usize) -> BorrowedVariable<'a>
        requires { n < length self.now.tables.variables }
        ensures { slice_get self.now.tables.variables n ≡ Some result }
    {
        self.scanned.variable(n)
    }

    /// How many features there are.
    pub fn feature_count(&self) -> usize
        ensures { result ≡ length self.now.tables.features }
    {
        self.scanned.feature_count()
    }

    /// The name of a feature, a slice of the image.
    pub fn feature(&self, n: usize) -> TextSlice<'a>
        requires { n < length self.now.tables.features }
        ensures { slice_get self.now.tables.features n ≡ Some result }
    {
        self.scanned.feature(n)
    }

    /// How many frames there are.
    pub fn frame_count(&self) -> usize
        ensures { result ≡ length self.now.tables.frames }
    {
        self.scanned.frame_count()
    }

    /// The name of a frame, a slice of the image.
    pub fn frame(&self, n: usize) -> TextSlice<'a>
        requires { n < length self.now.tables.frames }
        ensures { slice_get self.now.tables.frames n ≡ Some result }
    {
        self.scanned.frame(n)
    }

    /// The tables of names, on their own.
    ///
    /// # Errors
    ///
    /// Want of memory.
    pub fn tables(&self, alloc: Global) -> Result<Tables, NoMemory>
        ensures { IfOk result (λ t. t ≡ self.now.tables) }
    {
        self.scanned.tables(alloc)
    }

    /// How many statements there are.
    pub fn statement_count(&self) -> usize
        ensures count { result ≡ length self.now.statements }
        ensures fits { FitsImage self.now }
        ensures valid { IsValid self.now }
    {
        self.scanned.statement_count()
    }

    /// Changes nothing: its clauses tell of the code that it fits an image and is valid.
    pub fn known_valid(&self)
        ensures fits { FitsImage self.now }
        ensures valid { IsValid self.now }
    {
        let _count = self.statement_count();
    }

    /// A statement, whose items, text and branches are slices of the image. It is decoded anew at each call.
    pub fn statement(&self, n: usize) -> BorrowedStatement<'a>
        requires { n < length self.now.statements }
        ensures { slice_get self.now.statements n ≡ Some result }
    {
        self.scanned.statement(n)
    }

    // The bytes of the image from a statement on.
    #[inline(always)]
    fn bytes_from(&self, n: usize) -> &'a [u8]
        requires { n < length self.now.statements }
        ensures { Begins (line_at self.now.version) (λ s. slice_get self.now.statements n ≡ Some s) result.now }
    {
        self.scanned.bytes_from(n)
    }

    // The word of a statement, its source line, and the bytes of the image from its operands on.
    #[inline(always)]
    fn head(&self, n: usize) -> (Word, u32, &'a [u8])
        requires { n < length self.now.statements }
        ensures { (s : CodeStatement) × (slice_get self.now.statements n ≡ Some s) × (result.1 ≡ s.line) × Begins (operands_at result.0) (λ op. op ≡ s.op) result.2.now }
    {
        let (word, rest) = known_word(self.bytes_from(n));
        let (line, operands) = known_long(rest);
        (word, line, operands)
    }

    /// The word of a statement, and the bytes of the image from its operands on, for readers that carry it out as they read it.
    #[inline(always)]
    pub fn operands(&self, n: usize) -> (Word, &'a [u8])
        requires { n < length self.now.statements }
        ensures { (s : CodeStatement) × (slice_get self.now.statements n ≡ Some s) × Begins (operands_at result.0) (λ op. op ≡ s.op) result.1.now }
    {
        let (word, _, operands) = self.head(n);
        (word, operands)
    }

    /// The source line of a statement, whose operands are not read.
    pub fn line(&self, n: usize) -> u32
        requires { n < length self.now.statements }
        ensures { (s : CodeStatement) × (slice_get self.now.statements n ≡ Some s) × (result ≡ s.line) }
    {
        let (_, line, _) = self.head(n);
        line
    }

    /// The value of an expression of statement `n`, the first one at place 0, where the variables have the values of `slots`. It is evaluated
    /// where it stands in the image, and takes no memory.
    ///
    /// # Errors
    ///
    /// The first fault: an exact result outside 64 bits, or a zero divisor.
    pub fn value(&self, n: usize, place: usize, slots: &[i64]) -> Result<i64, Fault>
        requires statement { n < length self.now.statements }
        requires place { (s : CodeStatement) → slice_get self.now.statements n ≡ Some s → place < length (expressions s.op) }
        requires slots { length slots.now ≡ length self.now.tables.variables }
        ensures value { (s : CodeStatement) (e : List Item) → slice_get self.now.statements n ≡ Some s → slice_get (expressions s.op) place ≡ Some e
            → result ≡ items_value slots.now e }
        ensures truth { IfOk result (λ v. (s : CodeStatement) (e : List Item) → slice_get self.now.statements n ≡ Some s → slice_get (expressions s.op) place ≡ Some e
            → SlotsFit (kinds_of self.now.tables) slots.now → HasKind (kinds_of self.now.tables) e KindOf.Bool → IsTruth v) }
    {
        let statement = self.scanned.statement(n);
        match expression(&statement.op, place) {
            Some(items) => walking::items_value(&items, slots),
            None => unreachable!(),
        }
    }
}
