//! Lines as commands. Nothing here takes memory.

ghost use Rattle.std.specs.Prelude.{◌≡◌, ◌==◌, ◌<◌, ◌≤◌, length, map, not, true, IfOk};
ghost use Rattle.std.specs.List.{list_all, prefix_len};
ghost use Rattle.std.specs.Char.{is_ascii_digit};
ghost use Rattle.vcm_num.specs.Literals.{AllDigits, number_after};
ghost use Rattle.vcm_console.specs.Parsing.{steps_of, first_word, behind_word, number_of, optional_number, count_of, may_stand_in_name, feature_name_of, begins_with_letter, variable_name_of, expansion_of, name_len, wanted_of, alone, command_of_words, command_or_refusal, command_of};
ghost use Rattle.vcm_lines.specs.Bytes.{upper};

use crate::command::{Command, Count, VariableRef};
use crate::reply::{CommandRefusal, Reply};
use vcm_items::Name;
use vcm_lines::upper;
use vcm_num::is;

/// The most bytes of a line.
const MAX_LINE: usize = 256;

// How many blanks are in front.
fn blanks(bytes: &[u8]) -> usize
    ensures { result ≡ prefix_len (λ b. b == 32) bytes.now }
{
    bytes.iter().take_while(|b| **b == b' ').count()
}

// How many bytes are before the first blank.
fn word_len(bytes: &[u8]) -> usize
    ensures { result ≡ prefix_len (λ b. not (b == 32)) bytes.now }
{
    bytes.iter().take_while(|b| **b != b' ').count()
}

// The first word, and what follows it.
fn cut_word(bytes: &[u8]) -> (&[u8], &[u8])
    ensures word { result.0.now ≡ first_word bytes.now }
    ensures rest { result.1.now ≡ behind_word bytes.now }
{
    let (_, rest) = bytes.split_at(blanks(bytes));
    rest.split_at(word_len(rest))
}

// Whether all bytes are digits.
fn all_digits(bytes: &[u8]) -> bool
    ensures { result ≡ list_all is_ascii_digit bytes.now }
{
    bytes.iter().all(|byte| byte.is_ascii_digit())
}

// The number that at most ten digits spell.
fn value_of(digits: &[u8]) -> u64
    requires few { length digits.now ≤ 10 }
    requires digits { AllDigits digits.now }
    ensures { result ≡ number_after 0 digits.now }
{
    let mut value = 0;
    for byte in digits {
        value = value * 10 + u64::from(*byte - b'0');
    }
    value
}

// A number of one to ten digits.
fn number(word: &[u8]) -> Result<u64, CommandRefusal>
    ensures { result ≡ number_of word.now }
{
    if word.is_empty() || word.len() > 10 || !all_digits(word) {
        return Err(CommandRefusal::UnknownCommand);
    }
    Ok(value_of(word))
}

// A number that may be absent.
fn optional(word: &[u8]) -> Result<Option<u64>, CommandRefusal>
    ensures { result ≡ optional_number word.now }
{
    if word.is_empty() {
        return Ok(None);
    }
    match number(word) {
        Ok(n) => Ok(Some(n)),
        Err(refusal) => Err(refusal),
    }
}

// A count, or the one for none.
fn count(absent: u64, word: &[u8]) -> Result<Count, CommandRefusal>
    ensures is { result ≡ count_of absent word.now }
    ensures few { IfOk result (λ n. n ≤ 1000000) }
{
    if word.is_empty() {
        return Count::new(absent);
    }
    match number(word) {
        Ok(n) => Count::new(n),
        Err(refusal) => Err(refusal),
    }
}

// Whether all bytes are letters, digits and underscores.
fn is_plain(bytes: &[u8]) -> bool
    ensures { result ≡ list_all may_stand_in_name bytes.now }
{
    bytes
        .iter()
        .all(|byte| byte.is_ascii_alphanumeric() || *byte == b'_')
}

// A name with its letters in upper case.
fn raised(bytes: &[u8]) -> Name
    requires some { 0 < length bytes.now }
    requires short { length bytes.now ≤ 16 }
    requires plain { list_all may_stand_in_name bytes.now ≡ true }
    ensures { result ≡ map upper bytes.now }
{
    let mut own = [0; 16];
    for (index, byte) in bytes.iter().enumerate() {
        own[index] = upper(*byte);
    }
    Name::new(&own[..bytes.len()])
}

// The name of a feature.
fn label(word: &[u8]) -> Result<Name, CommandRefusal>
    ensures { result ≡ feature_name_of word.now }
{
    if word.is_empty() || word.len() > 16 || !is_plain(word) {
        return Err(CommandRefusal::UnknownCommand);
    }
    Ok(raised(word))
}

// Whether a letter stands first.
fn begins_with_letter(word: &[u8]) -> bool
    ensures { result ≡ begins_with_letter word.now }
{
    match word {
        [] => false,
        [first, ..] => first.is_ascii_alphabetic(),
    }
}

// The name of a variable.
fn name(word: &[u8]) -> Result<Name, CommandRefusal>
    ensures { result ≡ variable_name_of word.now }
{
    if begins_with_letter(word) {
        label(word)
    } else {
        Err(CommandRefusal::UnknownCommand)
    }
}

// The number of an expansion, behind its sign.
fn expansion(bytes: &[u8]) -> Result<u64, CommandRefusal>
    ensures { result ≡ expansion_of bytes.now }
{
    match bytes {
        [] => Ok(0),
        [_, digits @ ..] => number(digits),
    }
}

// How many bytes are before the number sign.
fn name_len(bytes: &[u8]) -> usize
    ensures { result ≡ name_len bytes.now }
{
    bytes.iter().take_while(|b| **b != b'#').count()
}

// A variable's name and its expansion.
fn wanted(word: &[u8]) -> Result<VariableRef, CommandRefusal>
    ensures { result ≡ wanted_of word.now }
{
    let (front, back) = word.split_at(name_len(word));
    match name(front) {
        Ok(name) => match expansion(back) {
            Ok(expansion) => Ok(VariableRef { name, expansion }),
            Err(refusal) => Err(refusal),
        },
        Err(refusal) => Err(refusal),
    }
}

// A command without an argument.
fn alone(what: Command, argument: &[u8]) -> Result<Command, CommandRefusal>
    ensures is { result ≡ alone what argument.now }
    ensures same { IfOk result (λ w. w ≡ what) }
{
    if argument.is_empty() {
        Ok(what)
    } else {
        Err(CommandRefusal::UnknownCommand)
    }
}

// The command of a word and its argument.
fn command_of(word: &[u8], argument: &[u8]) -> Result<Command, CommandRefusal>
    ensures is { result ≡ command_of_words word.now argument.now }
    ensures few { IfOk result (λ w. steps_of w ≤ 1000000) }
{
    if is(word, b"break") {
        Ok(Command::Break(number(argument)?))
    } else if is(word, b"clear") {
        Ok(Command::Clear(number(argument)?))
    } else if is(word, b"line") {
        Ok(Command::Line(number(argument)?))
    } else if is(word, b"step") {
        Ok(Command::Step(count(1, argument)?))
    } else if is(word, b"run") {
        Ok(Command::Run(count(1_000_000, argument)?))
    } else if is(word, b"watch") {
        Ok(Command::Watch(wanted(argument)?))
    } else if is(word, b"unwatch") {
        Ok(Command::Unwatch(wanted(argument)?))
    } else if is(word, b"where") {
        alone(Command::Where, argument)
    } else if is(word, b"show") {
        Ok(Command::Show(wanted(argument)?))
    } else if is(word, b"feat") {
        Ok(Command::Feat(label(argument)?))
    } else if is(word, b"list") {
        Ok(Command::List(optional(argument)?))
    } else if is(word, b"out") {
        Ok(Command::Out(count(10, argument)?))
    } else if is(word, b"back") {
        Ok(Command::Back(count(1, argument)?))
    } else if is(word, b"reverse") {
        alone(Command::Reverse, argument)
    } else if is(word, b"quit") {
        alone(Command::Quit, argument)
    } else {
        Err(CommandRefusal::UnknownCommand)
    }
}

// The command that a line spells.
fn parsed(line: &[u8]) -> Result<Command, CommandRefusal>
    ensures is { result ≡ command_or_refusal line.now }
    ensures few { IfOk result (λ w. steps_of w ≤ 1000000) }
{
    let (word, rest) = cut_word(line);
    let (argument, rest) = cut_word(rest);
    let (more, _) = cut_word(rest);
    if line.len() > MAX_LINE || !more.is_empty() {
        return Err(CommandRefusal::UnknownCommand);
    }
    command_of(word, argument)
}

/// The command that a line spells, without its ending.
///
/// Errors: the reply that refuses the line, `UnknownCommand` or `CountOutOfRange`.
pub fn parse_command(line: &[u8]) -> Result<Command, Reply>
    ensures is { result ≡ command_of line.now }
    ensures few { IfOk result (λ w. steps_of w ≤ 1000000) }
{
    match parsed(line) {
        Ok(command) => Ok(command),
        Err(refusal) => Err(Reply::Refused(refusal)),
    }
}
