//! The probe file of a description.

ghost use Rattle.std.specs.Prelude.{◌≡◌, ◌++◌, pos, int_div, int_rem, OnOk};
ghost use Rattle.std.specs.List.{list_any};
ghost use Rattle.std.specs.Option.{option_to_list};
ghost use Rattle.vcm_hardware.specs.Boxes.{centre};
ghost use Rattle.vcm_hardware.specs.Slabs.{cylinder_boxes};
ghost use Rattle.vcm_hardware.specs.ProbeFile.{box_text, own_text, blocks_text, parts_text, ball_text, balls_text, heads_text, half_text, angle_text, half_tip, probe_head, pose_text, probe_boxes, probe_text, probes_text, swing_text, is_other_pose, has_poses, steps_of, most_steps, variable_line, variable_text, swing_part, probe_file};
ghost use Rattle.vcm_hardware.specs.inner.Sizes.{AreSlabs, IsSwing};

use crate::angle::{Turning, steps_in};
use crate::boxes::{ball_box, centre, head_box, part_slabs, pivot, tip_of, turning_of};
use crate::cylinder::{Slabs, slab_of};
use crate::description::{Ball, Choice, Cylinder, Description, Hardware, Place, StillBox};
use crate::interval::radius_of;
use crate::pieces::{Piece, put, put_bytes};
use crate::swing::{Swing, swing_by, swing_slab, whole_reach};
use crate::word::Word;
use vcm_num::NoMemory;
use vcm_spec::Block3;

// Appends a box in its lines.
fn put_box(out: &mut Vec<u8>, head: &[u8], name: &[u8], block: Block3) -> Result<(), NoMemory>
    ensures { OnOk result (out.new.items ≡ out.old.items ++ box_text head.now name.now block) }
{
    put_bytes(out, head)?;
    put_bytes(out, name)?;
    put(
        out,
        &[
            Piece::Text(b"\"\nlow = "),
            Piece::At(block.low),
            Piece::Text(b"\nhigh = "),
            Piece::At(block.high),
            Piece::Text(b"\n"),
        ],
    )
}

// Appends a box of a probe.
fn put_own(out: &mut Vec<u8>, name: &[u8], block: Block3) -> Result<(), NoMemory>
    ensures { OnOk result (out.new.items ≡ out.old.items ++ own_text name.now block) }
{
    put_box(out, b"[[probe.box]]\nname = \"", name, block)
}

// Appends the box of a slab, if there is room in it.
fn put_slab(out: &mut Vec<u8>, name: &[u8], block: Option<Block3>) -> Result<(), NoMemory>
    ensures { OnOk result (out.new.items ≡ out.old.items ++ blocks_text name.now (option_to_list block)) }
{
    match block {
        Some(block) => put_own(out, name, block),
        None => Ok(()),
    }
}

// Appends the boxes of a part.
fn put_slabs(out: &mut Vec<u8>, name: &[u8], slabs: &Slabs) -> Result<(), NoMemory>
    requires { AreSlabs slabs.now }
    ensures { OnOk result (out.new.items ≡ out.old.items ++ blocks_text name.now (cylinder_boxes slabs.now)) }
{
    for index in 0..slabs.count {
        put_slab(out, name, slab_of(slabs, index))?;
    }
    Ok(())
}

// Appends those of the parts.
fn put_parts(
    out: &mut Vec<u8>,
    turning: &Turning,
    tip: Place,
    parts: &[Cylinder],
) -> Result<(), NoMemory>
    ensures { OnOk result (out.new.items ≡ out.old.items ++ parts_text turning.now tip parts.now) }
{
    for part in parts {
        put_slabs(out, part.name.as_bytes(), &part_slabs(turning, tip, part))?;
    }
    Ok(())
}

// Appends the cube of a ball, unless it is the tip itself.
fn put_ball(
    out: &mut Vec<u8>,
    turning: &Turning,
    tip: Place,
    is_own: bool,
    ball: &Ball,
) -> Result<(), NoMemory>
    ensures { OnOk result (out.new.items ≡ out.old.items ++ ball_text turning.now tip is_own ball.now) }
{
    if is_own {
        return Ok(());
    }
    put_own(out, ball.name.as_bytes(), ball_box(turning, tip, ball))
}

// Appends those of the balls.
fn put_balls(
    out: &mut Vec<u8>,
    turning: &Turning,
    tip: Place,
    own: usize,
    balls: &[Ball],
) -> Result<(), NoMemory>
    ensures { OnOk result (out.new.items ≡ out.old.items ++ balls_text turning.now tip own 0 balls.now) }
{
    for place in 0..balls.len() {
        put_ball(out, turning, tip, place == own, &balls[place])?;
    }
    Ok(())
}

// Appends the boxes that stand still.
fn put_heads(
    out: &mut Vec<u8>,
    turning: &Turning,
    tip: Place,
    heads: &[StillBox],
) -> Result<(), NoMemory>
    ensures { OnOk result (out.new.items ≡ out.old.items ++ heads_text (centre turning.now tip) heads.now) }
{
    let centre = centre(turning, tip);
    for still in heads {
        put_own(out, still.name.as_bytes(), head_box(&centre, still))?;
    }
    Ok(())
}

// The whole degrees of an angle, and what is left of it.
#[tactic(auto, using(crate::proofs::Quotients::degrees_fit))]
fn degrees_of(angle: i32) -> i64
    ensures { result ≡ int_div angle (pos 1000) }
{
    i64::from(angle / 1000)
}

#[tactic(auto, using(crate::proofs::Quotients::rest_fits))]
fn rest_of(angle: i32) -> i32
    ensures { result ≡ int_rem angle (pos 1000) }
{
    angle % 1000
}

// What stands behind the whole degrees.
fn half_text(rest: i32) -> &'static [u8]
    ensures { result.now ≡ half_text rest }
{
    if rest == 0 { b"" } else { b"_5" }
}

// Appends an angle behind its letter.
fn put_angle(out: &mut Vec<u8>, letter: &'static [u8], angle: i32) -> Result<(), NoMemory>
    ensures { OnOk result (out.new.items ≡ out.old.items ++ angle_text letter.now angle) }
{
    put(
        out,
        &[
            Piece::Text(letter),
            Piece::Number(degrees_of(angle)),
            Piece::Text(half_text(rest_of(angle))),
        ],
    )
}

// Half the width of a probe's tip, up.
fn half_tip(balls: &[Ball], choice: &Choice) -> i64
    ensures { result ≡ half_tip balls.now choice.now }
{
    match balls.get(choice.tip) {
        Some(ball) => radius_of(ball.diameter) as i64,
        None => 0,
    }
}

// Appends the lines of a probe before its pose.
fn put_probe_head(
    out: &mut Vec<u8>,
    hardware: &Hardware,
    turning: &Turning,
    choice: &Choice,
) -> Result<(), NoMemory>
    ensures { OnOk result (out.new.items ≡ out.old.items ++ probe_head hardware.now turning.now choice.now) }
{
    let tip = tip_of(hardware.balls(), choice);
    put_bytes(out, b"[[probe]]\nname = \"")?;
    put_bytes(out, choice.name.as_bytes())?;
    put(
        out,
        &[
            Piece::Text(b"\"\nnumber = "),
            Piece::Number(i64::from(choice.number)),
            Piece::Text(b"\ntip = "),
            Piece::Number(half_tip(hardware.balls(), choice)),
            Piece::Text(b"\npivot = "),
            Piece::At(pivot(&centre(turning, tip))),
            Piece::Text(b"\npose = \""),
        ],
    )
}

// Appends a pose and the end of its line.
fn put_pose(out: &mut Vec<u8>, choice: &Choice) -> Result<(), NoMemory>
    ensures { OnOk result (out.new.items ≡ out.old.items ++ pose_text choice.now) }
{
    put_angle(out, b"A", choice.a)?;
    put_angle(out, b"B", choice.b)?;
    put_bytes(out, b"\"\n")
}

// Appends the boxes of a probe.
fn put_boxes(
    out: &mut Vec<u8>,
    hardware: &Hardware,
    turning: &Turning,
    choice: &Choice,
) -> Result<(), NoMemory>
    ensures { OnOk result (out.new.items ≡ out.old.items ++ probe_boxes hardware.now turning.now choice.now) }
{
    let tip = tip_of(hardware.balls(), choice);
    put_parts(out, turning, tip, hardware.parts())?;
    put_balls(out, turning, tip, choice.tip, hardware.balls())?;
    put_heads(out, turning, tip, hardware.heads())
}

// Appends a probe.
fn put_probe(out: &mut Vec<u8>, hardware: &Hardware, choice: &Choice) -> Result<(), NoMemory>
    ensures { OnOk result (out.new.items ≡ out.old.items ++ probe_text hardware.now choice.now) }
{
    let turning = turning_of(hardware.turn(), choice);
    put_probe_head(out, hardware, &turning, choice)?;
    put_pose(out, choice)?;
    put_boxes(out, hardware, &turning, choice)
}

// Appends all probes.
fn put_probes(out: &mut Vec<u8>, hardware: &Hardware, choices: &[Choice]) -> Result<(), NoMemory>
    ensures { OnOk result (out.new.items ≡ out.old.items ++ probes_text hardware.now choices.now) }
{
    for choice in choices {
        put_probe(out, hardware, choice)?;
    }
    Ok(())
}

// Appends the slabs of a swing.
fn put_swing(out: &mut Vec<u8>, swing: Swing) -> Result<(), NoMemory>
    requires { IsSwing swing }
    ensures { OnOk result (out.new.items ≡ out.old.items ++ swing_text swing) }
{
    for index in 0..16 {
        put_box(
            out,
            b"[[swing]]\nname = \"",
            b"swing",
            swing_slab(swing, index),
        )?;
    }
    Ok(())
}

// Whether another probe has another pose.
fn is_other_pose(first: &Choice, other: &Choice) -> bool
    ensures { result ≡ is_other_pose first.now other.now }
{
    other.a != first.a || other.b != first.b
}

// Whether one of these probes has another pose.
fn is_any_other(first: &Choice, choices: &[Choice]) -> bool
    ensures { result ≡ list_any (is_other_pose first.now) choices.now }
{
    choices.iter().any(|other| is_other_pose(first, other))
}

// Whether two probes have different poses.
fn has_poses(choices: &[Choice]) -> bool
    ensures { result ≡ has_poses choices.now }
{
    match choices {
        [first, ..] => is_any_other(first, choices),
        [] => false,
    }
}

// By how many steps A is turned, to either side.
fn steps_of(choice: &Choice) -> i32
    ensures value { result ≡ steps_of choice.now }
{
    let steps = steps_in(choice.a);
    steps.max(-steps)
}

// By how many steps A is turned at most.
fn most_steps(choices: &[Choice]) -> i32
    ensures { result ≡ most_steps (pos 0) choices.now }
{
    let mut most = 0;
    for choice in choices {
        most = most.max(steps_of(choice));
    }
    most
}

// Appends the line of the variable, where the description has one.
fn put_variable(out: &mut Vec<u8>, variable: &Option<Word>) -> Result<(), NoMemory>
    ensures { OnOk result (out.new.items ≡ out.old.items ++ variable_text variable.now) }
{
    match variable {
        None => Ok(()),
        Some(name) => put_variable_line(out, name.as_bytes()),
    }
}

// Appends that line.
fn put_variable_line(out: &mut Vec<u8>, name: &[u8]) -> Result<(), NoMemory>
    ensures { OnOk result (out.new.items ≡ out.old.items ++ variable_line name.now) }
{
    put_bytes(out, b"variable = \"")?;
    put_bytes(out, name)?;
    put_bytes(out, b"\"\n")
}

// Appends the swing, where there are two poses.
fn put_swing_part(
    out: &mut Vec<u8>,
    hardware: &Hardware,
    choices: &[Choice],
) -> Result<(), NoMemory>
    ensures { OnOk result (out.new.items ≡ out.old.items ++ swing_part hardware.now choices.now) }
{
    if has_poses(choices) {
        put_swing(out, swing_by(whole_reach(hardware), most_steps(choices)))
    } else {
        Ok(())
    }
}

/// Appends the probe file of a description: the line of the variable, each probe with its boxes, and the swing where there are two poses.
///
/// # Errors
///
/// Want of memory.
pub fn write_probe_file(description: &Description, out: &mut Vec<u8>) -> Result<(), NoMemory>
    ensures { OnOk result (out.new.items ≡ out.old.items ++ probe_file description.now) }
{
    put_variable(out, description.variable())?;
    put_probes(out, description.hardware(), description.choices())?;
    put_swing_part(out, description.hardware(), description.choices())
}
