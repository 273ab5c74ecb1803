//! A text with what is given.

use std::alloc::Global;
use vcm_events::{Event, unknown};
use vcm_forms::{Form, Statement, Target};
use vcm_given::{Answer, Choices, GivenFrame, Value, choose};
use vcm_items::{Name, VariableName};
use vcm_lines::logical_lines;
use vcm_num::{Items, is};
use vcm_spec::{FrameAxis, Quarters};

// The opening, a frame that is found in a way that isn't known, and a question.
const TEXT: &[u8] = b"DMISMN/'T'
UNITS/MM,ANGDEC
D(A)=LOCATE/XYZAXI,FA(P)
TEXT/QUERY,(SIZE),5,N,L,'How large?'
";

// A setting, a frame and an answer.
fn choices(alloc: Global) -> Option<Choices> {
    let mut choices = Choices::none(alloc);
    choices.approach = Some(2000);
    let frame = GivenFrame {
        name: Name::new(b"A"),
        x: 1000,
        y: -2000,
        z: 0,
        turn: Some((FrameAxis::Z, Quarters::One)),
    };
    choices.frames.push(frame).ok()?;
    let answer = Answer {
        variable: VariableName::new(b"SIZE"),
        value: Value::Int(-3),
    };
    choices.answers.push(answer).ok()?;
    Some(choices)
}

// What the text says.
fn said(alloc: Global) -> Option<Vec<Statement>> {
    let target = Target {
        name: Name::new(b"SIZE"),
        expansion: 0,
    };
    let forms = [
        (1, Form::Opening),
        (1, Form::Measures),
        (3, Form::Shift(Name::new(b"A"), Items::new(alloc))),
        (4, Form::Assignment(target, unknown())),
    ];
    let mut said = Vec::new(alloc);
    for (line, form) in forms {
        said.push(Statement { line, form }).ok()?;
    }
    Some(said)
}

// A letter for what a statement says.
fn letter(statement: &Statement) -> u8 {
    match &statement.form {
        Form::Opening => b'O',
        Form::Measures => b'U',
        Form::Configure(_, _) => b'C',
        Form::Shift(_, _) => b'S',
        Form::Rotation(_, _, _) => b'R',
        Form::Assignment(target, _) => {
            if is(target.name.as_bytes(), Event::Machine.name()) {
                b'M'
            } else {
                b'A'
            }
        }
        _ => b'?',
    }
}

// The letters of what the text says with these choices.
fn letters(alloc: Global, choices: &Choices) -> Option<Vec<u8>> {
    let lines = logical_lines(alloc, TEXT).ok()?;
    let chosen = choose(alloc, choices, lines.as_slice(), said(alloc)?).ok()?;
    let mut letters = Vec::new(alloc);
    for statement in &chosen {
        letters.push(letter(statement)).ok()?;
    }
    Some(letters)
}

// Whether the text says this with these choices.
fn says(alloc: Global, choices: Option<Choices>, wanted: &[u8]) -> Option<bool> {
    let letters = letters(alloc, &choices?)?;
    Some(is(letters.as_slice(), wanted))
}

#[test]
fn what_is_given_stands_where_it_belongs(rt: HostRuntime) {
    assert!(rt; says(rt.alloc(), choices(rt.alloc()), b"OUSCMSRMMSRAA") == Some(true));
}

#[test]
fn with_nothing_given_the_text_stays_as_it_is(rt: HostRuntime) {
    assert!(rt; says(rt.alloc(), Some(Choices::none(rt.alloc())), b"OUSSA") == Some(true));
}
