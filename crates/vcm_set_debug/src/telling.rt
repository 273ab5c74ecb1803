//! What is told of a session: the texts of its replies, and behind those that tell where it stands which probe is on.

ghost use Rattle.std.specs.Prelude.{◌≡◌, ◌++◌, ◌<◌, ◌+◌, ◌^◌, option_map};
ghost use Rattle.vcm_num.specs.Written.{Wrote};
ghost use Rattle.vcm_set_debug.specs.Reached.{lost};
ghost use Rattle.vcm_set_debug.specs.Telling.{no_probe_line, probe_line, lost_line, standing_lines, tells_standing, reply_lines};

use crate::course::Course;
use crate::session::SetSession;
use itoa::Buffer;
use std::io::Write;
use vcm_console::{Reply, write_halt, write_reply};
use vcm_motion::Part;
use vcm_num::{WriteFault, int_text, write_all, write_pieces};
use vcm_probe_set::Probe;
use vcm_turning::NoProbe;

/// Writes the line of a run that ends before this step, since no probe with the number is on.
///
/// Errors: the writer failed, or took no byte; then it has taken a front of the line, and not all of it.
pub fn write_no_probe<W: Write>(lost: NoProbe, step: u64, writer: &mut W) -> Result<(), WriteFault>
    ensures { Wrote (W.contents writer.old) (W.contents writer.new) (no_probe_line lost step) result }
{
    let mut number = Buffer::new();
    let mut line = Buffer::new();
    let mut digits = Buffer::new();
    write_pieces(
        writer,
        &[
            b"no probe ",
            int_text(lost.value).as_slice(),
            b" at ",
            number.format(lost.number).as_bytes(),
            b" line ",
            line.format(lost.line).as_bytes(),
            b" step ",
            digits.format(step).as_bytes(),
            b"\n",
        ],
    )
}

// Writes which probe is on.
fn write_probe<W: Write>(probe: Option<&Probe>, writer: &mut W) -> Result<(), WriteFault>
    ensures { Wrote (W.contents writer.old) (W.contents writer.new) (probe_line (option_map (λ p. p.now) probe.entry)) result }
{
    match probe {
        None => write_all(writer, b"probe none\n"),
        Some(probe) => {
            let mut number = Buffer::new();
            let number = number.format(probe.number()).as_bytes();
            let name = probe.name().as_bytes();
            write_pieces(writer, &[b"probe ", name, b" number ", number, b"\n"])
        }
    }
}

// Writes that the run goes no farther for want of a probe, where that is so.
fn write_lost<W: Write>(lost: Option<NoProbe>, step: u64, writer: &mut W) -> Result<(), WriteFault>
    ensures { Wrote (W.contents writer.old) (W.contents writer.new) (lost_line lost step) result }
{
    match lost {
        None => Ok(()),
        Some(lost) => write_no_probe(lost, step, writer),
    }
}

// Writes which probe is on where a run stands, and that it goes no farther for want of the chosen one.
fn write_standing_lines<P: Part, W: Write>(
    course: &Course<'_, P>,
    writer: &mut W,
) -> Result<(), WriteFault>
    requires { course.now.count + 1 < 2 ^ 64 }
    ensures { Wrote (W.contents writer.old) (W.contents writer.new) (standing_lines course.now) result }
{
    write_probe(course.probe(), writer)?;
    write_lost(course.lost(), course.count() + 1, writer)
}

// Whether a reply tells where a session stands.
fn tells_standing(reply: Reply) -> bool
    ensures { result ≡ tells_standing reply }
{
    match reply {
        Reply::Stands(_) => true,
        Reply::Ran(_, _) => true,
        _ => false,
    }
}

// Writes the lines behind a reply.
fn write_reply_lines<P: Part, W: Write>(
    course: &Course<'_, P>,
    reply: &Reply,
    writer: &mut W,
) -> Result<(), WriteFault>
    requires { course.now.count + 1 < 2 ^ 64 }
    ensures { Wrote (W.contents writer.old) (W.contents writer.new) (reply_lines course.now reply.now) result }
{
    if tells_standing(*reply) {
        write_standing_lines(course, writer)
    } else {
        Ok(())
    }
}

impl<'a, P: Part> SetSession<'a, P> {
    ghost use Rattle.std.specs.Prelude.{◌≡◌, ◌<◌, ◌+◌, ◌^◌, ◌++◌};
    ghost use Rattle.vcm_num.specs.Written.{Wrote};
    ghost use Rattle.vcm_console.specs.Replies.{ReplyFits, reply_text, halt_text};
    ghost use Rattle.vcm_debug.specs.Session.{standing};
    ghost use Rattle.vcm_set_debug.specs.Reached.{now};
    ghost use Rattle.vcm_set_debug.specs.Session.{world};
    ghost use Rattle.vcm_set_debug.specs.Telling.{reply_lines};

    // Writes the text of a reply, without the lines behind it.
    fn write_alone<W: Write>(&self, reply: &Reply, writer: &mut W) -> Result<(), WriteFault>
        requires { ReplyFits self.now.run.code (world self.now).lines reply.now }
        ensures { Wrote (W.contents writer.old) (W.contents writer.new) (reply_text self.now.run.code (world self.now).lines reply.now) result }
    {
        let world = self.course.world();
        write_reply(
            self.course.loaded(),
            world.tables(),
            world.lines(),
            *reply,
            writer,
        )
    }

    /// Writes the text of a reply, and behind one that tells where it stands which probe is on, and that the run goes no farther for want of the chosen one.
    ///
    /// Errors: the writer failed, or took no byte; then it has taken a front of the text.
    pub fn write_reply<W: Write>(&self, reply: &Reply, writer: &mut W) -> Result<(), WriteFault>
        requires fits { ReplyFits self.now.run.code (world self.now).lines reply.now }
        requires few { self.now.run.count + 1 < 2 ^ 64 }
        ensures { Wrote (W.contents writer.old) (W.contents writer.new)
            (reply_text self.now.run.code (world self.now).lines reply.now ++ reply_lines self.now.run reply.now) result }
    {
        self.write_alone(reply, writer)?;
        write_reply_lines(&self.course, reply, writer)
    }

    /// Writes that memory was refused, and where it stands.
    ///
    /// Errors: the writer failed, or took no byte; then it has taken a front of the text.
    pub fn write_halted<W: Write>(&self, writer: &mut W) -> Result<(), WriteFault>
        ensures { Wrote (W.contents writer.old) (W.contents writer.new)
            (halt_text self.now.run.code.tables (standing self.now.run.code self.now.run.count (now self.now.run).state)) result }
    {
        write_halt(self.course.world().tables(), self.standing(), writer)
    }
}
