//! An image whose fields are all in range, and where each of its variables, names and statements begins.

ghost use Rattle.std.specs.Prelude.{◌≡◌, ◌<◌, ◌≤◌, drop, Some, IfOk, length, slice_get};
ghost use Rattle.vcm_items.specs.NameBytes.{IsName};
ghost use Rattle.vcm_fields.specs.Readers.{Begins, line_at};

use crate::copying;
use std::alloc::Global;
use std::marker::Model;
use vcm_code::Version;
use vcm_fields::{BorrowedStatement, BorrowedVariable, TextSlice, name, statement, variable};
use vcm_items::Tables;
use vcm_num::NoMemory;

/// The bytes of an image whose fields are all in range, and where its variables, names and statements begin. No statement is kept decoded. Contracts
/// see it as the code that the bytes spell.
#[derive(Drop)]
pub struct Scanned<'a> {
    bytes: &'a [u8],
    version: Version,
    variables: Vec<usize>,
    features: Vec<usize>,
    frames: Vec<usize>,
    statements: Vec<usize>,
}

impl<'a> Model for Scanned<'a> {
    ghost use Rattle.vcm_code.specs.declared.code.Code.{Code};

    ghost Value = { Code };

    ghost use Rattle.vcm_image.specs.inner.Places.{code_in, Indexed};

    ghost view = { λ s. code_in s.bytes.now };

    ghost invariant = { λ s. Indexed s.bytes.now s.version s.variables.items s.features.items s.frames.items s.statements.items };
}

/// The bytes from there on.
pub(crate) fn after(bytes: &[u8], start: usize) -> &[u8]
    requires { start ≤ length bytes.now }
    ensures { result.now ≡ drop start bytes.now }
{
    let (_front, back) = bytes.split_at(start);
    back
}

impl<'a> Scanned<'a> {
    ghost use Rattle.vcm_items.specs.NameBytes.{IsVariableName};
    ghost use Rattle.vcm_image.specs.inner.Places.{code_in, Indexed};

    /// An image whose fields are all in range, whose variables, names and statements begin at these places.
    pub(crate) fn new(
        bytes: &'a [u8],
        version: Version,
        variables: Vec<usize>,
        features: Vec<usize>,
        frames: Vec<usize>,
        statements: Vec<usize>,
    ) -> Scanned<'a>
        requires { Indexed bytes.now version variables.items features.items frames.items statements.items }
        ensures { result ≡ code_in bytes.now }
    {
        Scanned {
            bytes,
            version,
            variables,
            features,
            frames,
            statements,
        }
    }

    /// Its version.
    pub fn version(&self) -> Version
        ensures { result ≡ self.now.version }
    {
        self.version
    }

    /// How many variables there are.
    pub fn variable_count(&self) -> usize
        ensures { result ≡ length self.now.tables.variables }
    {
        self.variables.len()
    }

    /// A variable, whose name is a slice of the image.
    pub fn variable(&self, n: usize) -> BorrowedVariable<'a>
        requires { n < length self.now.tables.variables }
        ensures is { slice_get self.now.tables.variables n ≡ Some result }
        ensures name { IsVariableName result.name }
    {
        let start = self.variables[n];
        match variable(after(self.bytes, start)) {
            Ok((variable, _)) => variable,
            Err(_) => unreachable!(),
        }
    }

    /// How many features there are.
    pub fn feature_count(&self) -> usize
        ensures { result ≡ length self.now.tables.features }
    {
        self.features.len()
    }

    /// The name of a feature, a slice of the image.
    pub fn feature(&self, n: usize) -> TextSlice<'a>
        requires { n < length self.now.tables.features }
        ensures is { slice_get self.now.tables.features n ≡ Some result }
        ensures name { IsName result }
    {
        let start = self.features[n];
        match name(after(self.bytes, start)) {
            Ok((name, _)) => name,
            Err(_) => unreachable!(),
        }
    }

    /// How many frames there are.
    pub fn frame_count(&self) -> usize
        ensures { result ≡ length self.now.tables.frames }
    {
        self.frames.len()
    }

    /// The name of a frame, a slice of the image.
    pub fn frame(&self, n: usize) -> TextSlice<'a>
        requires { n < length self.now.tables.frames }
        ensures is { slice_get self.now.tables.frames n ≡ Some result }
        ensures name { IsName result }
    {
        let start = self.frames[n];
        match name(after(self.bytes, start)) {
            Ok((name, _)) => name,
            Err(_) => unreachable!(),
        }
    }

    /// How many statements there are.
    pub fn statement_count(&self) -> usize
        ensures { result ≡ length self.now.statements }
    {
        self.statements.len()
    }

    /// A statement, whose items, text and branches are slices of the image. It is decoded anew at each call.
    pub fn statement(&self, n: usize) -> BorrowedStatement<'a>
        requires { n < length self.now.statements }
        ensures { slice_get self.now.statements n ≡ Some result }
    {
        match statement(self.version, self.bytes_from(n)) {
            Ok((statement, _)) => statement,
            Err(_) => unreachable!(),
        }
    }

    /// The bytes of the image from a statement on.
    #[inline(always)]
    pub fn bytes_from(&self, n: usize) -> &'a [u8]
        requires { n < length self.now.statements }
        ensures { Begins (line_at self.now.version) (λ s. slice_get self.now.statements n ≡ Some s) result.now }
    {
        let start = self.statements[n];
        after(self.bytes, start)
    }

    /// The tables of names, on their own.
    ///
    /// # Errors
    ///
    /// Want of memory.
    pub fn tables(&self, alloc: Global) -> Result<Tables, NoMemory>
        ensures { IfOk result (λ t. t ≡ self.now.tables) }
    {
        copying::tables(alloc, self)
    }
}
