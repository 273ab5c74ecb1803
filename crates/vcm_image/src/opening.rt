//! Images that are read from the front: the header, the names, and one statement after the other.

ghost use Rattle.std.specs.Prelude.{◌≡◌, ◌<◌, ◌+◌, Ok, Some, IfOk, IfErr, length, slice_get};
ghost use Rattle.vcm_code.specs.declared.code.Code.{Code};
ghost use Rattle.vcm_fields.specs.Readers.{Gives, Fails, GivesOrNoMemory, times, name_at, entry_at};
ghost use Rattle.vcm_image.specs.Whole.{FitsImage, spelling, version_at, header_at, count_at, ended, code_at};
ghost use Rattle.vcm_image.specs.Opened.{begun_at, next_at};
ghost use Rattle.vcm_image.specs.inner.Places.{Table, IsEnd};

use crate::counts::Counts;
use crate::scanned::{Scanned, after};
use std::alloc::Global;
use std::marker::Model;
use vcm_code::Version;
use vcm_fields::{
    BorrowedStatement, BorrowedVariable, ImageFault, known, long, name, short, statement, variable,
};

/// The bytes `VCMI` as a number of four bytes.
pub(crate) const MAGIC: u32 = 1_229_800_278;

/// The most variables, features or frames.
pub(crate) const MOST_NAMES: u16 = vcm_num::MOST_NAMES as u16;

/// The most statements.
pub(crate) const MOST_STATEMENTS: u32 = vcm_num::MOST_STATEMENTS as u32;

// The bytes of the shortest statements: a word and a source line. Room is made for no more statements than the bytes can hold.
const SHORTEST: usize = 5;

// A number of two bytes, not above a limit.
fn count(limit: u16, bytes: &[u8]) -> Result<(u16, &[u8]), ImageFault>
    ensures { Gives (λ x. (x.0, x.1.now)) result (count_at limit bytes.now) }
{
    let (number, rest) = short(bytes)?;
    if number > limit {
        return Err(ImageFault::BadField);
    }
    Ok((number, rest))
}

// A version, and the bytes behind it.
fn version(bytes: &[u8]) -> Result<(Version, &[u8]), ImageFault>
    ensures { Gives (λ x. (x.0, x.1.now)) result (version_at bytes.now) }
{
    let (number, rest) = short(bytes)?;
    match number {
        1 => Ok((Version::One, rest)),
        2 => Ok((Version::Two, rest)),
        _ => Err(ImageFault::BadVersion),
    }
}

// The header, and the bytes behind it.
#[tactic(auto, unfolding(crate::specs::Whole::header_at))]
fn header(bytes: &[u8]) -> Result<(Counts, &[u8]), ImageFault>
    ensures { Gives (λ x. (x.0, x.1.now)) result (header_at bytes.now) }
{
    let (magic, rest) = long(bytes)?;
    if magic != MAGIC {
        return Err(ImageFault::BadMagic);
    }
    let (version, rest) = version(rest)?;
    let (variables, rest) = count(MOST_NAMES, rest)?;
    let (features, rest) = count(MOST_NAMES, rest)?;
    let (frames, rest) = count(MOST_NAMES, rest)?;
    let (statements, rest) = long(rest)?;
    if statements > MOST_STATEMENTS {
        return Err(ImageFault::BadField);
    }
    let counts = Counts {
        version,
        variables,
        features,
        frames,
        statements,
    };
    Ok((counts, rest))
}

// Where so many variables begin, and the bytes behind them.
fn variables<'a>(
    alloc: Global,
    count: u16,
    whole: &[u8],
    bytes: &'a [u8],
) -> Result<(Vec<usize>, &'a [u8]), ImageFault>
    requires { IsEnd whole.now bytes.now }
    ensures ok { IfOk result (λ x. Table entry_at count whole.now bytes.now x.0.items x.1.now) }
    ensures err { IfErr result (λ e. Fails e (times entry_at count bytes.now)) }
{
    let mut starts = Vec::new(alloc);
    let mut rest = bytes;
    for _ in 0..count {
        let start = whole.len() - rest.len();
        let (_variable, after) = variable(rest)?;
        starts.push(start)?;
        rest = after;
    }
    Ok((starts, rest))
}

// Where so many names begin, and the bytes behind them.
fn names<'a>(
    alloc: Global,
    count: u16,
    whole: &[u8],
    bytes: &'a [u8],
) -> Result<(Vec<usize>, &'a [u8]), ImageFault>
    requires { IsEnd whole.now bytes.now }
    ensures ok { IfOk result (λ x. Table name_at count whole.now bytes.now x.0.items x.1.now) }
    ensures err { IfErr result (λ e. Fails e (times name_at count bytes.now)) }
{
    let mut starts = Vec::new(alloc);
    let mut rest = bytes;
    for _ in 0..count {
        let start = whole.len() - rest.len();
        let (_name, after) = name(rest)?;
        starts.push(start)?;
        rest = after;
    }
    Ok((starts, rest))
}

/// An image whose names are read, and of whose statements some are, from the front. Contracts see it as what is read, how many statements are left,
/// and the bytes behind what is read. Where all statements are read, it is finished.
#[derive(Drop)]
pub struct Opening<'a> {
    bytes: &'a [u8],
    version: Version,
    variables: Vec<usize>,
    features: Vec<usize>,
    frames: Vec<usize>,
    // Where the statements begin that are read.
    statements: Vec<usize>,
    // How many statements there are.
    count: u32,
    // The bytes behind what is read.
    rest: &'a [u8],
}

impl<'a> Model for Opening<'a> {
    ghost use Rattle.std.specs.Prelude.{length};
    ghost use Rattle.std.specs.Coded.{codes};
    ghost use Rattle.vcm_code.specs.contracts.code.Code as code;
    ghost use Rattle.vcm_image.specs.Opened.{Opened};

    ghost Value = { Opened };

    ghost coded = { Prim.hlevel (codes, code.the_row.coded) };

    ghost use Rattle.vcm_image.specs.inner.Places.{opened_in, Opens};

    ghost view = { λ o. opened_in (length o.statements.items) o.bytes.now };

    ghost invariant = { λ o. Opens o.bytes.now o.version o.variables.items o.features.items o.frames.items o.statements.items o.count o.rest.now };
}

impl<'a> Opening<'a> {
    /// The image that begins the bytes, of which the header and the names are read.
    ///
    /// # Errors
    ///
    /// The first refusal from the front. Want of memory.
    pub fn begin(alloc: Global, bytes: &'a [u8]) -> Result<Opening<'a>, ImageFault>
        ensures { GivesOrNoMemory (λ o. o) result (begun_at bytes.now) }
    {
        let (counts, rest) = header(bytes)?;
        let (variables, rest) = variables(alloc, counts.variables, bytes, rest)?;
        let (features, rest) = names(alloc, counts.features, bytes, rest)?;
        let (frames, rest) = names(alloc, counts.frames, bytes, rest)?;
        let room = (counts.statements as usize).min(rest.len() / SHORTEST);
        let statements = Vec::with_capacity(alloc, room)?;
        Ok(Opening {
            bytes,
            version: counts.version,
            variables,
            features,
            frames,
            statements,
            count: counts.statements,
            rest,
        })
    }

    /// How many variables there are.
    pub fn variable_count(&self) -> usize
        ensures { result ≡ length self.now.code.tables.variables }
    {
        self.variables.len()
    }

    /// A variable, whose name is a slice of the image.
    pub fn variable(&self, n: usize) -> BorrowedVariable<'a>
        requires { n < length self.now.code.tables.variables }
        ensures { slice_get self.now.code.tables.variables n ≡ Some result }
    {
        let (variable, _) = known(variable(after(self.bytes, self.variables[n])));
        variable
    }

    /// How many features there are.
    pub fn feature_count(&self) -> usize
        ensures { result ≡ length self.now.code.tables.features }
    {
        self.features.len()
    }

    /// How many frames there are.
    pub fn frame_count(&self) -> usize
        ensures { result ≡ length self.now.code.tables.frames }
    {
        self.frames.len()
    }

    /// How many statements there are, read or not.
    pub fn statement_count(&self) -> usize
        ensures { result ≡ length self.now.code.statements + self.now.left }
    {
        self.count as usize
    }

    /// Reads one statement more. Its items, text and branches are slices of the image.
    ///
    /// # Errors
    ///
    /// The first refusal of the statement. Want of memory. What is read is then as it was.
    #[inline(always)]
    pub fn next(&mut self) -> Result<BorrowedStatement<'a>, ImageFault>
        requires { 0 < self.old.left }
        // What is read, and which refusal it is.
        ensures exact { GivesOrNoMemory (λ s. (s, self.new)) result (next_at self.old) }
        // A refusal changes nothing.
        ensures kept { IfErr result (λ e. self.new ≡ self.old) }
    {
        let start = self.bytes.len() - self.rest.len();
        let (found, rest) = statement(self.version, self.rest)?;
        self.statements.push(start)?;
        self.rest = rest;
        Ok(found)
    }

    /// The image, of which all statements are read.
    ///
    /// # Errors
    ///
    /// Trailing where bytes are left over.
    pub fn finish(self) -> Result<Scanned<'a>, ImageFault>
        requires { self.left ≡ 0 }
        ensures { Gives (λ s. s) result (ended (self.entry.code, self.entry.rest)) }
    {
        if !self.rest.is_empty() {
            return Err(ImageFault::Trailing);
        }
        Ok(Scanned::new(
            self.bytes,
            self.version,
            self.variables,
            self.features,
            self.frames,
            self.statements,
        ))
    }
}

// The image that the bytes are, read to its end.
fn opened(alloc: Global, bytes: &[u8]) -> Result<Scanned<'_>, ImageFault>
    ensures { GivesOrNoMemory (λ s. s) result (code_at bytes.now) }
{
    let mut opening = Opening::begin(alloc, bytes)?;
    for _ in 0..opening.statement_count() {
        let _statement = opening.next()?;
    }
    opening.finish()
}

/// The code whose one spelling the bytes are, read in place.
///
/// # Errors
///
/// The first refusal from the front: Short where the bytes of a field are missing, BadMagic, BadVersion or BadField where a field is out of its
/// range, Trailing where bytes are left over. Want of memory.
pub fn open(alloc: Global, bytes: &[u8]) -> Result<Scanned<'_>, ImageFault>
    // What is read is spelled so.
    ensures found { IfOk result (λ s. FitsImage s × (bytes.now ≡ spelling s)) }
    // What is spelled so is read, unless memory runs out.
    ensures only { (c : Code) → FitsImage c → bytes.now ≡ spelling c → GivesOrNoMemory (λ s. s) result (Ok c) }
    // Which refusal it is.
    ensures exact { GivesOrNoMemory (λ s. s) result (code_at bytes.now) }
{
    opened(alloc, bytes)
}
