//! Remarks on statements.

/// What of the machine may not be known. Each stands for the variables that carry it.
#[derive(Clone, Copy, PartialEq, Eq)]
pub enum Cause {
    /// A rotary table was turned.
    Table,
    /// The machine isn't in a programmed mode.
    Mode,
    /// The machine scans.
    Scanning,
    /// The unit of lengths isn't one that is followed.
    Unit,
    /// The current frame.
    Frame,
    /// The approach, the search or the way back of a touch.
    Setting,
    /// The value of a variable, or of an expression that has no form.
    Value,
    /// Anything: a statement may have done what isn't known.
    All,
}

/// What is said of a statement that a whole program is put as, where it is carried out.
#[derive(Clone, Copy, PartialEq, Eq)]
pub enum Remark {
    /// A motion of the text isn't tried here.
    NotTried,
    /// The next way begins elsewhere than on the machine: something before it wasn't tried.
    BeginsElsewhere,
    /// A point of the text was approached and left here, and not touched.
    Approached,
    /// An output line of the text isn't written here: its feature was measured in another frame, or not.
    NotReported,
    /// Another sensor than the one before is selected here: what comes after it is tried with the tip of the part all the same.
    AnotherTip,
    /// A probe is selected here that the file of probes hasn't: none of the file's is on after it.
    NotInFile,
    /// From here on this isn't known.
    Loses(Cause),
    /// Nothing is tried from here on: the run goes to its end.
    Ends,
}

/// A remark on the statement with a number, which is one of a line of the text. Numbers are those of the steps of a run, from 0 on.
#[derive(Clone, Copy, PartialEq, Eq)]
pub struct NumberedRemark {
    pub number: u32,
    pub line: u32,
    pub remark: Remark,
}
