//! The words of the options.

ghost use Rattle.std.specs.Prelude.{◌≡◌, ℕ, ℤ, false, option_map, ◌≤◌, ◌∷◌, ◌==◌, ◌&&◌, [], pos, nat_le, length, ◌<◌, None, IfSome, IsTrue};
ghost use Rattle.std.specs.List.{list_all, position};
ghost use Rattle.vcm_num.specs.Point.{is_near_zero};
ghost use Rattle.vcm_num.specs.Words.{look_up};
ghost use Rattle.vcm_num.specs.declared.number.Literal.TheVariants.{Int};
ghost use Rattle.vcm_blocks.specs.Words.{unit_words, angle_words, axis_of, then_quarters, turned, between_commas, turn_of, micrometres, IsLength, IsShift, IsMost, is_name, name_of};

use vcm_mesh::{LengthUnit, Turn};
use vcm_num::{Literal, Point, look_up, read_number};
use vcm_spec::FrameAxis;

/// The most millimetres of a length, either way.
const FARTHEST: i64 = 1_000_000;

/// The most bytes of a name.
const LONGEST_NAME: usize = 32;

/// How many quarter turns.
#[derive(Clone, Copy)]
pub enum Quarters {
    One,
    Two,
    Three,
}

/// What a word of `--unit` says: `mm` or `inch`.
pub fn unit_word(word: &[u8]) -> Option<LengthUnit>
    ensures { result ≡ look_up unit_words word.now }
{
    look_up(
        &[(b"mm", LengthUnit::Millimetre), (b"inch", LengthUnit::Inch)],
        word,
    )
}

// The quarter turns of an angle in degrees.
fn angle_of(angle: &[u8]) -> Option<Quarters>
    ensures { result ≡ look_up angle_words angle.now }
{
    look_up(
        &[
            (b"90", Quarters::One),
            (b"180", Quarters::Two),
            (b"270", Quarters::Three),
            (b"-90", Quarters::Three),
            (b"-180", Quarters::Two),
            (b"-270", Quarters::One),
        ],
        angle,
    )
}

// The axis that a letter names.
fn axis_of(letter: u8) -> Option<FrameAxis>
    ensures { result ≡ axis_of letter }
{
    match letter {
        b'x' | b'X' => Some(FrameAxis::X),
        b'y' | b'Y' => Some(FrameAxis::Y),
        b'z' | b'Z' => Some(FrameAxis::Z),
        _ => None,
    }
}

// A turn, and then so many quarter turns about an axis.
fn then_quarters(count: Quarters, about: FrameAxis, turn: Turn) -> Turn
    ensures { result ≡ then_quarters count about turn }
{
    match count {
        Quarters::One => turn.then_quarter(about),
        Quarters::Two => turn.then_quarter(about).then_quarter(about),
        Quarters::Three => turn
            .then_quarter(about)
            .then_quarter(about)
            .then_quarter(about),
    }
}

// A turn, and then the one that a word as `x90` spells.
fn turned(turn: Turn, word: &[u8]) -> Option<Turn>
    ensures { result ≡ turned turn word.now }
{
    let (letter, angle) = word.split_first()?;
    let about = axis_of(*letter)?;
    let count = angle_of(angle)?;
    Some(then_quarters(count, about, turn))
}

// Where the first comma stands.
fn comma(word: &[u8]) -> Option<usize>
    ensures { result ≡ position (λ b. b == 44) word.now }
{
    word.iter().position(|byte| *byte == b',')
}

// What stands before the first comma and after it, if there is one.
fn cut(word: &[u8]) -> Option<(&[u8], &[u8])>
    ensures none { result ≡ None → between_commas word.now ≡ word.now ∷ [] }
    ensures some { IfSome result (λ c. (between_commas word.now ≡ c.0.now ∷ between_commas c.1.now) × (length c.1.now < length word.now)) }
{
    match comma(word) {
        None => None,
        Some(at) => Some((&word[..at], &word[at + 1..])),
    }
}

/// The turn that a word of `--turn` spells, as `x90,z-90`: letters of axes of the machine with 90, 180 or 270 degrees, which a minus may
/// stand before, from left to right.
pub fn turn_word(word: &[u8]) -> Option<Turn>
    ensures { result ≡ turn_of word.now }
{
    let mut turn = Turn::none();
    let mut rest = word;
    while let Some((front, behind)) = cut(rest) {
        turn = turned(turn, front)?;
        rest = behind;
    }
    turned(turn, rest)
}

// The micrometres of a number of millimetres, if they are a kilometre at most.
fn micrometres(number: Literal) -> Option<i64>
    ensures some { IfSome result (λ z. (z ≡ micrometres number) × IsTrue (is_near_zero z)) }
    ensures none { result ≡ None → is_near_zero (micrometres number) ≡ false }
{
    match number {
        Literal::Int(n) if -FARTHEST <= n && n <= FARTHEST => Some(n * 1000),
        Literal::Thousandths(n) if -1000 * FARTHEST <= n && n <= 1000 * FARTHEST => Some(n),
        _ => None,
    }
}

/// The micrometres that a word spells as millimetres with at most three decimals, if they are at most 1,000,000,000 from 0.
pub fn millimetres(word: &[u8]) -> Option<i64>
    ensures some { IfSome result (IsLength word.now) }
    ensures none { result ≡ None → (z : ℤ) → IsLength word.now z → ⊥ }
{
    match read_number(word) {
        Ok(number) => micrometres(number),
        Err(_) => None,
    }
}

// Three words between commas, if there are no more and no fewer.
fn three_words(word: &[u8]) -> Option<(&[u8], &[u8], &[u8])>
    ensures { IfSome result (λ w. between_commas word.now ≡ w.0.now ∷ w.1.now ∷ w.2.now ∷ []) }
{
    let (first, behind) = cut(word)?;
    let (second, third) = cut(behind)?;
    match cut(third) {
        None => Some((first, second, third)),
        Some(_) => None,
    }
}

/// The point that a word of `--at` spells: `X,Y,Z` in millimetres with at most three decimals each.
pub fn shift_word(word: &[u8]) -> Option<Point>
    ensures { IfSome result (IsShift word.now) }
{
    let (x, y, z) = three_words(word)?;
    let x = millimetres(x)?;
    let y = millimetres(y)?;
    let z = millimetres(z)?;
    Some(Point::new(x, y, z))
}

/// The micrometres that a word of `--within` spells: a length in millimetres with at most three decimals, from 0.001 to 1,000,000.
pub fn length_word(word: &[u8]) -> Option<u32>
    ensures is { IfSome result (λ n. IsLength word.now (pos n)) }
    ensures some { IfSome result (λ n. 1 ≤ n) }
    ensures none { result ≡ None → (n : ℕ) → 1 ≤ n → IsLength word.now (pos n) → ⊥ }
{
    let length = millimetres(word)?;
    if length < 1 {
        return None;
    }
    Some(length as u32)
}

// A whole number from 1 to 4,096.
fn count_of(number: Literal) -> Option<usize>
    ensures some { IfSome result (λ n. (number ≡ Int (pos n)) × (1 ≤ n) × (n ≤ 4096)) }
    ensures none { result ≡ None → (n : ℕ) → number ≡ Int (pos n) → 1 ≤ n → n ≤ 4096 → ⊥ }
{
    match number {
        Literal::Int(n) => {
            if 1 <= n && n <= 4096 {
                return Some(n as usize);
            }
            None
        }
        Literal::Thousandths(_) => None,
    }
}

/// The number that a word of `--most` spells: from 1 to 4,096.
pub fn most_word(word: &[u8]) -> Option<usize>
    ensures some { IfSome result (IsMost word.now) }
    ensures none { result ≡ None → (n : ℕ) → IsMost word.now n → ⊥ }
{
    match read_number(word) {
        Ok(number) => count_of(number),
        Err(_) => None,
    }
}

// Whether a byte can be shown.
fn is_shown(byte: u8) -> bool
    ensures { result ≡ (nat_le 32 byte && nat_le byte 126) }
{
    b' ' <= byte && byte <= b'~'
}

// Whether all bytes can.
fn are_shown(bytes: &[u8]) -> bool
    ensures { result ≡ list_all (λ b. nat_le 32 b && nat_le b 126) bytes.now }
{
    bytes.iter().all(|byte| is_shown(*byte))
}

// Whether a text may be the name of blocks.
fn is_name(text: &[u8]) -> bool
    ensures { result ≡ is_name text.now }
{
    !text.is_empty() && text.len() <= LONGEST_NAME && are_shown(text)
}

/// The name that a word of `--name` is: 1 to 32 printable bytes.
pub fn name_word(word: &str) -> Option<&str>
    ensures { option_map (λ w. w.now) result ≡ name_of word.now }
{
    if is_name(word.as_bytes()) {
        Some(word)
    } else {
        None
    }
}

/// A file's name without its folders.
pub fn file_name(path: &str) -> &str {
    match path.rsplit_once('/') {
        Some((_, name)) => name,
        None => path,
    }
}

/// The name of a model's blocks where none is given: its file's name without folders and without its end, `model` where that can't be one.
pub fn model_name(path: &str) -> &str {
    let name = file_name(path);
    let stem = match name.rsplit_once('.') {
        Some((stem, _)) => stem,
        None => name,
    };
    name_word(stem).unwrap_or("model")
}
