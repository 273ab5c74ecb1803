//! Numbers as producers write them.

/// A number with up to seven decimals, counted in ten millionths: of millimetres, a micrometre is 10,000.
#[derive(Clone, Copy)]
pub struct Decimal {
    /// How many ten millionths it is, the digits behind them left out.
    pub value: i64,
    /// Whether a digit behind the third decimal isn't zero.
    pub is_fine: bool,
}

// How many decimals are kept.
const PLACES: u32 = 7;

// A number so far.
#[derive(Clone, Copy)]
struct Reading {
    value: i64,
    // The decimals so far, where the point was.
    places: Option<u32>,
    is_some: bool,
    is_fine: bool,
}

// One more digit.
fn with_digit(number: Reading, digit: u8) -> Option<Reading> {
    let places = number.places.map(|places| places.saturating_add(1));
    let is_kept = match places {
        None => true,
        Some(places) => places <= PLACES,
    };
    let is_behind = match places {
        None => false,
        Some(places) => places > 3,
    };
    let value = if is_kept {
        number.value.checked_mul(10)?.checked_add(i64::from(digit))?
    } else {
        number.value
    };
    Some(Reading {
        value,
        places,
        is_some: true,
        is_fine: number.is_fine || is_behind && digit != 0,
    })
}

// One more byte.
fn with_byte(number: Reading, byte: u8) -> Option<Reading> {
    match byte {
        b'0'..=b'9' => with_digit(number, byte.wrapping_sub(b'0')),
        b'.' if number.places.is_none() => Some(Reading {
            places: Some(0),
            ..number
        }),
        _ => None,
    }
}

// A number without a sign.
fn unsigned(bytes: &[u8]) -> Option<Decimal> {
    let mut number = Reading {
        value: 0,
        places: None,
        is_some: false,
        is_fine: false,
    };
    for byte in bytes {
        number = with_byte(number, *byte)?;
    }
    if !number.is_some {
        return None;
    }
    let mut value = number.value;
    for _ in number.places.unwrap_or(0)..PLACES {
        value = value.checked_mul(10)?;
    }
    Some(Decimal {
        value,
        is_fine: number.is_fine,
    })
}

/// The number that bytes spell: digits, with a point or without, behind a sign or none. None where they spell another thing, or one too large.
pub fn read_decimal(bytes: &[u8]) -> Option<Decimal> {
    match bytes {
        [b'-', digits @ ..] => {
            let number = unsigned(digits)?;
            Some(Decimal {
                value: number.value.checked_neg()?,
                is_fine: number.is_fine,
            })
        }
        [b'+', digits @ ..] => unsigned(digits),
        _ => unsigned(bytes),
    }
}

/// Ten millionths of a millimetre as micrometres, rounded half away from zero.
pub fn micrometres(value: i64) -> i64 {
    if value < 0 {
        value.saturating_sub(5000) / 10_000
    } else {
        value.saturating_add(5000) / 10_000
    }
}

/// Whether a digit that isn't zero stands behind the third one behind a point.
pub fn has_fine_digits(bytes: &[u8]) -> bool {
    let mut places = None;
    for byte in bytes {
        places = match byte {
            b'.' => Some(0u32),
            b'0'..=b'9' => places.map(|places| places.saturating_add(1)),
            _ => None,
        };
        if *byte != b'0' && places.unwrap_or(0) > 3 {
            return true;
        }
    }
    false
}
