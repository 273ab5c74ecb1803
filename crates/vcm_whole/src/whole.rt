//! From a producer's text to an image.

ghost use Rattle.std.specs.Prelude.{◌≡◌, ◌≤◌, length, true, None, IfOk, IfErr, IsTrue};
ghost use Rattle.std.specs.List.{list_all};
ghost use Rattle.std.specs.Prelude.{slice_get, false, not, Some};
ghost use Rattle.std.specs.Str.{bytes_eq};
ghost use Rattle.vcm_lines.specs.declared.fault.FaultCode.{FaultCode};
ghost use Rattle.vcm_num.specs.declared.limits.TheConstants.{MOST_STATEMENTS};
ghost use Rattle.vcm_items.specs.NameBytes.{is_variable_name};
ghost use Rattle.std.specs.Prelude.{ℕ, List};
ghost use Rattle.vcm_forms.specs.declared.statement.Statement.{Statement as Said};
ghost use Rattle.vcm_lines.specs.declared.logical.Logical.{Logical as Read};
ghost use Rattle.vcm_tree.specs.Program.{notices_of};
ghost use Rattle.vcm_tree.specs.Declaring.{PlacedDeclareVariables};
ghost use Rattle.vcm_tree.specs.Ended.{is_ended};
ghost use Rattle.vcm_tree.specs.Acceptance.{ReadsLines};
ghost use Rattle.vcm_said.specs.All.{said_all, refused_from};
ghost use Rattle.vcm_given.specs.Unused.{unused};
ghost use Rattle.vcm_whole.specs.Losses.{says_unit as unit_said, says_mode as mode_said, says_sensor as sensor_said, unlooked};
ghost use Rattle.vcm_given.specs.Tips.{other_tips};
ghost use Rattle.vcm_given.specs.Missing.{missing_probes};
ghost use Rattle.vcm_given.specs.declared.choices.Choices.{Choices as Given};
ghost use Rattle.vcm_plain.specs.declared.unit.Lengths.{Lengths as Measure};
ghost use Rattle.vcm_plain.specs.declared.unit.Unit.TheVariants.{Millimetre};
ghost use Rattle.std.specs.Prelude.{MatchOption, IfSome};
ghost use Rattle.vcm_run.specs.Built.{IsBuilt, IsBuiltPlaced};
ghost use Rattle.vcm_whole.specs.inner.Memory.{is_memory};
ghost use Rattle.vcm_plain.specs.Plain.{plain};
ghost use Rattle.vcm_plain.specs.Units.{all_in, lengths_of};
ghost use Rattle.vcm_kept.specs.Guarding.{guarded};
ghost use Rattle.vcm_kept.specs.Put.{placed_in, remarks_in};
ghost use Rattle.vcm_whole.specs.Whole.{ReadsPlain, statements_of, is_rewritten as rewrites, stays, HasToBeCarried, Carries, Expands, IsPut, IsWholeBuilt, IsPutAs, is_lettered, is_lettered_placed, is_program, line_beyond, IsWholeRefusal};

use crate::frames::{FrameLine, named_frames};
use crate::losses::{lossy_lines, says_mode, says_sensor, says_unit, unlooked};
use crate::readings::{Readings, readings_of};
use std::alloc::Global;
use vcm_certain::is_certain;
use vcm_compared::compare;
use vcm_datums::date;
use vcm_doubts::settle;
use vcm_forms::{Form, Statement};
use vcm_given::{
    Choices, MissingProbe, OtherTip, choose, first_unused, given_texts, missing_probes, other_tips,
};
use vcm_items::{Name, VariableName, is_variable_name};
use vcm_kept::{Put, put_text};
use vcm_lines::{FaultCode, Logical, SourceFault, logical_lines};
use vcm_macro::{Placed, expand};
use vcm_num::{Items, MOST_STATEMENTS, NoMemory};
use vcm_plain::{Lengths, Unit, lengths_of, plain_text};
use vcm_program::Noticed;
use vcm_remarks::NumberedRemark;
use vcm_run::{Built, Refusal, build_image, build_placed};
use vcm_said::{first_refusal, say_all};
use vcm_tree::noted;

/// What is told of a text beside its program.
#[derive(Drop)]
pub struct Facts {
    /// How its lengths are read.
    pub lengths: Lengths,
    /// Whether some of them are written otherwise than they are read, which is in whole micrometres.
    pub is_rewritten: bool,
    /// The lines by whose statements something may be lost or isn't followed, in order, each once.
    pub losses: Items<u32>,
    /// The first name that is given and that the text never uses.
    pub unused: Option<Name>,
    /// The lines of statements that make or recall a frame by its name, in order.
    pub frames: Items<FrameLine>,
    /// How many statements it has.
    pub statements: usize,
    /// Whether the program is the text as it is written: that is read in one way and loses nothing.
    pub is_as_written: bool,
    /// Whether the text says its unit anywhere.
    pub says_unit: bool,
    /// Whether it says its mode.
    pub says_mode: bool,
    /// Whether it selects a sensor.
    pub says_sensor: bool,
    /// The tips that it puts on that aren't that of the part, or of their probe.
    pub tips: Items<OtherTip>,
    /// The sensors that it selects and that the file of probes hasn't.
    pub missing: Items<MissingProbe>,
    /// The words of its statements that aren't looked at, each once.
    pub unlooked: Items<Name>,
    /// What hangs on how a machine counts and reads it, and is taken in one way.
    pub readings: Readings,
}

/// The image of the program that a producer's text is put as.
#[derive(Drop)]
pub struct Whole {
    pub image: Vec<u8>,
    /// The lines that have no effect.
    pub notices: Vec<Noticed>,
    /// What is said of its statements where they are carried out, in order.
    pub remarks: Vec<NumberedRemark>,
    pub facts: Facts,
}

// What is told of a text before its statements are put.
#[derive(Drop)]
struct Reading {
    lengths: Lengths,
    is_rewritten: bool,
    unused: Option<Name>,
    tips: Items<OtherTip>,
    missing: Items<MissingProbe>,
    unlooked: Items<Name>,
}

// A program as an image, with the remarks on its statements.
#[derive(Drop)]
struct Program {
    image: Vec<u8>,
    notices: Vec<Noticed>,
    remarks: Vec<NumberedRemark>,
    is_as_written: bool,
}

// Whether a name is one of variables.
fn is_lettered_name(name: &VariableName) -> bool
    ensures { result ≡ is_variable_name name.now }
{
    is_variable_name(name.name().as_bytes())
}

// Whether all names are.
fn are_lettered(names: &[VariableName]) -> bool
    ensures { result ≡ list_all is_variable_name names.now }
{
    names.iter().all(|name| is_lettered_name(name))
}

// Whether a statement declares names of variables.
fn is_lettered(placed: &Placed) -> bool
    ensures { result ≡ is_lettered_placed placed.now }
{
    match &placed.statement.form {
        Form::Declaration(_, names) => are_lettered(names.as_slice()),
        _ => true,
    }
}

// Whether all statements do.
fn all_lettered(all: &[Placed]) -> bool
    ensures { result ≡ list_all is_lettered_placed all.now }
{
    all.iter().all(|placed| is_lettered(placed))
}

// Whether the last statement is ENDFIL.
#[tactic(auto, using(crate::proofs::Ended::behind_none))]
fn is_ended(all: &[Placed]) -> bool
    ensures { result ≡ is_ended all.now }
{
    let mut ended = false;
    for placed in all {
        ended = matches!(&placed.statement.form, Form::Ending);
    }
    ended
}

// Whether statements are a program as far as it can be told without their names.
fn is_program(all: &[Placed]) -> bool
    ensures value { result ≡ is_program all.now }
{
    all_lettered(all) && is_ended(all)
}

// The fault of more statements than a program may have.
fn too_long(all: &[Placed]) -> SourceFault
    ensures { result ≡ record { code = FaultCode.TooLong; line = line_beyond (slice_get all.now MOST_STATEMENTS) } }
{
    let line = match all.get(MOST_STATEMENTS) {
        Some(placed) => placed.statement.line,
        None => 0,
    };
    SourceFault {
        code: FaultCode::TooLong,
        line,
    }
}

// The image of what an expanded text is put as.
fn build_put(
    alloc: Global,
    notices: Vec<Noticed>,
    expanded: Vec<Placed>,
) -> Result<Program, Refusal>
    requires { (ss : List Said) × (notices.items ≡ notices_of ss) }
    ensures built { IfOk result (λ p. (ss : List Said) → notices.items ≡ notices_of ss → IsBuiltPlaced ss (placed_in (guarded expanded.items)) p.image.items p.notices.items) }
    ensures remarks { IfOk result (λ p. p.remarks.items ≡ remarks_in (guarded expanded.items)) }
    ensures carried { IfOk result (λ p. p.is_as_written ≡ false) }
    ensures refused { IfErr result (λ r. (c : Given) (text : List ℕ) (u : Measure) (ls : List Read) → Carries c text u ls expanded.items
        → notices.items ≡ notices_of (statements_of c text ls) → IsWholeRefusal c text r) }
{
    let (all, remarks) = match put_text(alloc, expanded) {
        Ok(Put { all, remarks }) => (all, remarks),
        Err(_) => return Err(Refusal::NoMemory),
    };
    if all.len() > MOST_STATEMENTS {
        return Err(Refusal::Source(too_long(&all)));
    }
    if !is_program(&all) {
        return Err(Refusal::Source(SourceFault {
            code: FaultCode::BadOrder,
            line: 1,
        }));
    }
    match build_placed(alloc, notices, all) {
        Ok(Built { image, notices }) => Ok(Program {
            image,
            notices,
            remarks,
            is_as_written: false,
        }),
        Err(refusal) => Err(refusal),
    }
}

// Whether a fault is want of memory.
fn is_memory(code: FaultCode) -> bool
    ensures { result ≡ is_memory code }
{
    matches!(code, FaultCode::NoMemory)
}

// The image of a text as it is written, where it stays so and is a program of the language.
fn build_written(
    alloc: Global,
    choices: &Choices,
    text: &[u8],
    expanded: &[Placed],
) -> Result<Option<Built>, NoMemory>
    ensures { IfOk result (λ b. MatchOption b (HasToBeCarried choices.now text.now expanded.now)
        (λ x. (stays choices.now expanded.now ≡ true) × IsBuilt text.now x.image.items x.notices.items)) }
{
    if !choices.is_silent() || !is_certain(alloc, expanded)? {
        return Ok(None);
    }
    match build_image(alloc, text) {
        Ok(built) => Ok(Some(built)),
        Err(Refusal::Source(fault)) => {
            if is_memory(fault.code) {
                Err(NoMemory)
            } else {
                Ok(None)
            }
        }
        Err(_) => Err(NoMemory),
    }
}

// The image of what an expanded text is put as: as it is written where it stays so, else with what is known carried.
fn build_program(
    alloc: Global,
    choices: &Choices,
    text: &[u8],
    notices: Vec<Noticed>,
    expanded: Vec<Placed>,
) -> Result<Program, Refusal>
    requires { (ss : List Said) × (notices.items ≡ notices_of ss) }
    ensures built { IfOk result (λ p. (ss : List Said) → notices.items ≡ notices_of ss
        → IsPut choices.now text.now ss expanded.items p.image.items p.notices.items p.remarks.items p.is_as_written) }
    ensures refused { IfErr result (λ r. (u : Measure) (ls : List Read) → Expands choices.now text.now u ls expanded.items
        → notices.items ≡ notices_of (statements_of choices.now text.now ls) → IsWholeRefusal choices.now text.now r) }
{
    match build_written(alloc, choices, text, &expanded) {
        Ok(Some(Built { image, notices })) => Ok(Program {
            image,
            notices,
            remarks: Vec::new(alloc),
            is_as_written: true,
        }),
        Ok(None) => build_put(alloc, notices, expanded),
        Err(_) => Err(Refusal::NoMemory),
    }
}

// What the statements of a text say, with what a command line says of them, where they say this of themselves.
fn statements_of(
    alloc: Global,
    choices: &Choices,
    text: &[u8],
    lines: &[Logical],
    said: Vec<Statement>,
) -> Result<Vec<Statement>, NoMemory>
    requires { said.items ≡ said_all lines.now }
    ensures { IfOk result (λ ss. ss.items ≡ statements_of choices.now text.now lines.now) }
{
    let given = given_texts(alloc, choices.answers.as_slice())?;
    let compared = compare(alloc, given.as_slice(), lines, said)?;
    let chosen = choose(alloc, choices, lines, compared)?;
    let dated = date(alloc, lines, chosen)?;
    settle(alloc, text, lines, dated)
}

// What is told of a text whose statements say this of themselves.
fn reading_of(
    alloc: Global,
    choices: &Choices,
    lengths: Lengths,
    is_rewritten: bool,
    lines: &[Logical],
    said: &[Statement],
) -> Result<Reading, NoMemory>
    ensures { IfOk result (λ r. (r.lengths ≡ lengths) × (r.is_rewritten ≡ is_rewritten) × (r.unused ≡ unused choices.now lines.now said.now)
        × (r.tips ≡ other_tips choices.now.probes choices.now.tip lines.now) × (r.missing ≡ missing_probes choices.now.probes lines.now) × (r.unlooked ≡ unlooked lines.now)) }
{
    let unused = first_unused(alloc, choices, lines, said)?;
    let tips = other_tips(alloc, choices.probes.as_slice(), choices.tip, lines)?;
    let missing = missing_probes(alloc, choices.probes.as_slice(), lines)?;
    let unlooked = unlooked(alloc, lines)?;
    Ok(Reading {
        lengths,
        is_rewritten,
        unused,
        tips,
        missing,
        unlooked,
    })
}

// What is told of a text, with its program.
fn whole_of(
    program: Program,
    reading: Reading,
    losses: Items<u32>,
    frames: Items<FrameLine>,
    readings: Readings,
    lines: &[Logical],
) -> Whole
    ensures program { (result.image ≡ program.image) × (result.notices ≡ program.notices) × (result.remarks ≡ program.remarks) }
    ensures facts { result.facts ≡ record {
      lengths = reading.lengths;
      is_rewritten = reading.is_rewritten;
      losses = losses;
      unused = reading.unused;
      frames = frames;
      statements = length lines.now;
      is_as_written = program.is_as_written;
      says_unit = unit_said lines.now;
      says_mode = mode_said lines.now;
      says_sensor = sensor_said lines.now;
      tips = reading.tips;
      missing = reading.missing;
      unlooked = reading.unlooked;
      readings = readings;
    } }
{
    let Program {
        image,
        notices,
        remarks,
        is_as_written,
    } = program;
    let Reading {
        lengths,
        is_rewritten,
        unused,
        tips,
        missing,
        unlooked,
    } = reading;
    let facts = Facts {
        lengths,
        is_rewritten,
        losses,
        unused,
        frames,
        statements: lines.len(),
        is_as_written,
        says_unit: says_unit(lines),
        says_mode: says_mode(lines),
        says_sensor: says_sensor(lines),
        tips,
        missing,
        unlooked,
        readings,
    };
    Whole {
        image,
        notices,
        remarks,
        facts,
    }
}

// The image of what statements are put as, with what is told of their text.
fn build_statements(
    alloc: Global,
    choices: &Choices,
    text: &[u8],
    lines: &[Logical],
    reading: Reading,
    statements: Vec<Statement>,
) -> Result<Whole, Refusal>
    requires shaped { refused_from false lines.now ≡ None }
    requires statements { statements.items ≡ statements_of choices.now text.now lines.now }
    ensures built { IfOk result (λ w. ReadsPlain text.now reading.lengths lines.now → reading.is_rewritten ≡ rewrites text.now reading.lengths
        → reading.unused ≡ unused choices.now lines.now (said_all lines.now) → reading.tips ≡ other_tips choices.now.probes choices.now.tip lines.now → reading.missing ≡ missing_probes choices.now.probes lines.now → reading.unlooked ≡ unlooked lines.now
        → IsWholeBuilt choices.now text.now w.image.items w.notices.items w.remarks.items w.facts) }
    ensures refused { IfErr result (λ r. ReadsPlain text.now reading.lengths lines.now → IsWholeRefusal choices.now text.now r) }
{
    let Ok(losses) = lossy_lines(alloc, &statements) else {
        return Err(Refusal::NoMemory);
    };
    let Ok(frames) = named_frames(alloc, &statements) else {
        return Err(Refusal::NoMemory);
    };
    let Ok(notices) = noted(alloc, &statements) else {
        return Err(Refusal::NoMemory);
    };
    let Ok(readings) = readings_of(alloc, lines, &statements) else {
        return Err(Refusal::NoMemory);
    };
    let expanded = match expand(alloc, statements) {
        Ok(expanded) => expanded,
        Err(fault) => return Err(Refusal::Source(fault)),
    };
    match build_program(alloc, choices, text, notices, expanded) {
        Ok(program) => Ok(whole_of(program, reading, losses, frames, readings, lines)),
        Err(refusal) => Err(refusal),
    }
}

// The image of what statements are put as, none of which is faulty where it shapes the program.
fn build_said(
    alloc: Global,
    choices: &Choices,
    text: &[u8],
    lengths: Lengths,
    is_rewritten: bool,
    lines: &[Logical],
) -> Result<Whole, Refusal>
    requires { refused_from false lines.now ≡ None }
    ensures built { IfOk result (λ w. ReadsPlain text.now lengths lines.now → is_rewritten ≡ rewrites text.now lengths
        → IsWholeBuilt choices.now text.now w.image.items w.notices.items w.remarks.items w.facts) }
    ensures refused { IfErr result (λ r. ReadsPlain text.now lengths lines.now → IsWholeRefusal choices.now text.now r) }
{
    let Ok(said) = say_all(alloc, lines) else {
        return Err(Refusal::NoMemory);
    };
    let Ok(reading) = reading_of(alloc, choices, lengths, is_rewritten, lines, &said) else {
        return Err(Refusal::NoMemory);
    };
    let Ok(statements) = statements_of(alloc, choices, text, lines, said) else {
        return Err(Refusal::NoMemory);
    };
    build_statements(alloc, choices, text, lines, reading, statements)
}

// The image of what statements are put as.
fn build_lines(
    alloc: Global,
    choices: &Choices,
    text: &[u8],
    lengths: Lengths,
    is_rewritten: bool,
    lines: &[Logical],
) -> Result<Whole, Refusal>
    ensures built { IfOk result (λ w. ReadsPlain text.now lengths lines.now → is_rewritten ≡ rewrites text.now lengths
        → IsWholeBuilt choices.now text.now w.image.items w.notices.items w.remarks.items w.facts) }
    ensures refused { IfErr result (λ r. ReadsPlain text.now lengths lines.now → IsWholeRefusal choices.now text.now r) }
{
    match first_refusal(alloc, lines) {
        Ok(None) => build_said(alloc, choices, text, lengths, is_rewritten, lines),
        Ok(Some(fault)) => Err(Refusal::Source(fault)),
        Err(_) => Err(Refusal::NoMemory),
    }
}

// Whether a text is written otherwise than it is read.
fn rewrites(read: &[u8], text: &[u8]) -> bool
    ensures { result ≡ not (bytes_eq read.now text.now) }
{
    read != text
}

// The image of what a text is put as whose lengths are read in this way.
fn build_converted(
    alloc: Global,
    choices: &Choices,
    text: &[u8],
    lengths: Lengths,
) -> Result<Whole, Refusal>
    ensures built { IfOk result (λ w. (ls : List Read) → ReadsLines (plain (all_in Millimetre) text.now) ls → lengths ≡ lengths_of ls
        → IsWholeBuilt choices.now text.now w.image.items w.notices.items w.remarks.items w.facts) }
    ensures refused { IfErr result (λ r. (ls : List Read) → ReadsLines (plain (all_in Millimetre) text.now) ls → lengths ≡ lengths_of ls → IsWholeRefusal choices.now text.now r) }
{
    let Ok(read) = plain_text(alloc, lengths, text) else {
        return Err(Refusal::NoMemory);
    };
    match logical_lines(alloc, &read) {
        Ok(lines) => {
            let is_rewritten = rewrites(&read, text);
            build_lines(
                alloc,
                choices,
                text,
                lengths,
                is_rewritten,
                lines.as_slice(),
            )
        }
        Err(fault) => Err(Refusal::Source(fault)),
    }
}

// How many statements these lines are put as; none where memory is refused, or a statement is.
fn count_lines(alloc: Global, choices: &Choices, text: &[u8], lines: &[Logical]) -> Option<usize>
    ensures { IfSome result (λ n. (u : Measure) → ReadsPlain text.now u lines.now → IsPutAs choices.now text.now n) }
{
    match first_refusal(alloc, lines) {
        Ok(None) => {}
        _ => return None,
    }
    let said = say_all(alloc, lines).ok()?;
    let statements = statements_of(alloc, choices, text, lines, said).ok()?;
    let expanded = expand(alloc, statements).ok()?;
    let Put { all, remarks } = put_text(alloc, expanded).ok()?;
    drop(remarks);
    Some(all.len())
}

// The same of a text whose lengths are read in this way.
fn count_converted(alloc: Global, choices: &Choices, text: &[u8], lengths: Lengths) -> Option<usize>
    ensures { IfSome result (λ n. (ls : List Read) → ReadsLines (plain (all_in Millimetre) text.now) ls → lengths ≡ lengths_of ls → IsPutAs choices.now text.now n) }
{
    let Ok(read) = plain_text(alloc, lengths, text) else {
        return None;
    };
    match logical_lines(alloc, &read) {
        Ok(lines) => count_lines(alloc, choices, text, lines.as_slice()),
        Err(_) => None,
    }
}

/// How many statements a text is put as where what is known is carried, also where these are more than a program may have; none where memory is refused, or the text
/// for something else.
pub fn count_put(alloc: Global, choices: &Choices, text: &[u8]) -> Option<usize>
    ensures { IfSome result (IsPutAs choices.now text.now) }
{
    let Ok(written) = plain_text(alloc, Lengths::all_in(Unit::Millimetre), text) else {
        return None;
    };
    match logical_lines(alloc, &written) {
        Ok(lines) => count_converted(alloc, choices, text, lengths_of(lines.as_slice())),
        Err(_) => None,
    }
}

/// The image of the program that a producer's text is put as, with the remarks on its statements. Each statement of the text is put by itself, with its line; what
/// isn't followed is a remark. Numbers of places and lengths are rounded to whole micrometres, and converted from the units of the text.
///
/// # Errors
///
/// `Source`: the first fault of the text's lines, of a statement that shapes the program (a block, a label, a jump, a macro, the end) and is none of the
/// language, of the order of statements or of macros; more than 20,000 statements when put; the first fault of names and blocks, or of jumps. Want of memory.
/// It never gives `Part`.
pub fn build_whole(alloc: Global, choices: &Choices, text: &[u8]) -> Result<Whole, Refusal>
    ensures built { IfOk result (λ w. IsWholeBuilt choices.now text.now w.image.items w.notices.items w.remarks.items w.facts) }
    ensures refused { IfErr result (IsWholeRefusal choices.now text.now) }
{
    let Ok(written) = plain_text(alloc, Lengths::all_in(Unit::Millimetre), text) else {
        return Err(Refusal::NoMemory);
    };
    match logical_lines(alloc, &written) {
        Ok(lines) => build_converted(alloc, choices, text, lengths_of(lines.as_slice())),
        Err(fault) => Err(Refusal::Source(fault)),
    }
}
