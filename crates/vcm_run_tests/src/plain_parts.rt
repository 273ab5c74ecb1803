//! The kinds of statements, each with the parts of its operands, as the plain reader of images knows them.

/// A part of a statement's operands. The kinds are 0 a whole number, 1 a real number, 2 a truth value.
#[derive(Clone, Copy)]
pub(crate) enum Part {
    // A variable, and an expression of its kind.
    Assigned,
    // The branches of a SELECT.
    Branches,
    // A byte from one number to another.
    Byte(u8, u8),
    // An expression of a kind.
    Expression(u8),
    Feature,
    Frame,
    Target,
    Text,
    // A variable of a kind.
    Variable(u8),
}

const REAL: Part = Part::Expression(1);

const WHOLE: Part = Part::Expression(0);

/// The parts of each kind of statements.
pub(crate) const PARTS: [&[Part]; 27] = [
    &[],
    &[REAL, REAL, REAL],
    &[],
    &[Part::Assigned],
    &[Part::Expression(2), Part::Target],
    &[Part::Target],
    &[],
    &[
        Part::Variable(0),
        Part::Byte(0, 31),
        WHOLE,
        WHOLE,
        WHOLE,
        Part::Target,
    ],
    &[Part::Variable(0), Part::Byte(0, 31), Part::Target],
    &[],
    &[Part::Target],
    &[Part::Feature, REAL, REAL, REAL, Part::Byte(0, 5)],
    &[Part::Feature],
    &[Part::Feature, REAL, REAL, REAL, Part::Byte(0, 6)],
    &[],
    &[Part::Byte(0, 3), REAL],
    &[Part::Frame, REAL, REAL, REAL],
    &[Part::Frame, Part::Byte(0, 2), Part::Byte(0, 3)],
    &[Part::Frame],
    &[
        Part::Variable(1),
        Part::Byte(0, 1),
        Part::Feature,
        Part::Byte(3, 8),
    ],
    &[Part::Byte(0, 1), Part::Feature],
    &[Part::Text],
    &[WHOLE, Part::Branches, Part::Target],
    &[],
    &[Part::Target],
    &[],
    &[],
];
