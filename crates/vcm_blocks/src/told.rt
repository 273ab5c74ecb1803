//! Lengths and places as they are told, in millimetres.

use std::fmt::{Display, Formatter, Result, Write};
use vcm_num::{Point, thousandths_text};

/// A length in micrometres, told in millimetres with three decimals.
#[derive(Clone, Copy)]
pub(crate) struct Millimetres(pub(crate) i64);

impl Millimetres {
    /// A length that is no less than 0.
    pub(crate) fn of(length: u32) -> Millimetres {
        Millimetres(i64::from(length))
    }
}

impl Display for Millimetres {
    fn fmt<W: Write>(&self, out: &mut Formatter<W>) -> Result {
        let text = thousandths_text(self.0);
        out.write_str(std::str::from_utf8(text.as_slice()).unwrap_or(""))
    }
}

/// A place in micrometres, told in millimetres.
#[derive(Clone, Copy)]
pub(crate) struct At(pub(crate) Point);

impl Display for At {
    fn fmt<W: Write>(&self, out: &mut Formatter<W>) -> Result {
        let Point([x, y, z]) = self.0;
        let (x, y, z) = (Millimetres(x), Millimetres(y), Millimetres(z));
        write!(out, "{x} {y} {z}")
    }
}
