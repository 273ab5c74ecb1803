//! The text of worked examples, line by line.

use crate::asking::{heard_of, words_answer};
use crate::explained::judge_examples;
use crate::failing::{DEVICES, STREAMS, try_closed, try_devices};
use crate::headings::{Heading, behind_word, heading_of, line_of, line_with};
use crate::messages::messages;
use crate::shapes::{
    answer_of, answer_with, bytes_of, digits_of, first_line, story_in, words_of_svg,
};
use crate::stage::Heard;
use crate::talks::{sent_in, talk_of, wanted_in};
use crate::tally::{MARK, Tally};
use crate::texts::{Asked, Texts, copied, joined, number_text, program_of, put, taken, text_of};
use crate::ways::{Ran, asked_with, heard_with, image_of, job_of, put_ways};
use std::alloc::Global;

// The most bytes of a text whose command is asked again where devices fail, and the most steps of its run.
const LONG: usize = 4096;

const FEW: u64 = 1_000;

// What stands behind a heading whose command is asked again where devices fail.
const FAILING: &str = " between devices that fail";

/// The text as far as it is read: what is set, what stands below the last heading, and how the answers were.
#[derive(Drop)]
pub(crate) struct Script {
    texts: Texts,
    title: String,
    body: String,
    repeated: String,
    times: u32,
    tally: Tally,
}

// The steps that a line of an answer tells; nothing where it tells none.
fn steps_in(line: &str) -> &str {
    let rest = match line.strip_prefix("steps ") {
        Some(rest) => rest,
        None => line.strip_prefix("step ").unwrap_or(""),
    };
    match rest.split_once(' ') {
        Some((steps, _)) => steps,
        None => rest,
    }
}

// Whether a line of an answer tells more than 9,999 steps.
fn has_many_steps(answer: &str) -> bool {
    for line in answer.lines() {
        if steps_in(line).len() > 4 {
            return true;
        }
    }
    false
}

// Whether what is told of a text that was adapted tells no fault, and nothing that isn't tried.
fn is_whole(told: &str) -> bool {
    for line in told.lines() {
        if line == "fault" || line == "not tried" {
            return false;
        }
    }
    true
}

// How often the lines below a heading are to stand there; none where it says nothing of that.
fn times_of(title: &str) -> Option<u32> {
    match title.strip_prefix("repeat ") {
        Some(times) => times.parse::<u32>().ok(),
        None => None,
    }
}

// A line with a number where the sign for it stands.
fn numbered(alloc: Global, line: &str, number: u32) -> String {
    let mut text = String::new(alloc);
    for (place, piece) in line.split('%').enumerate() {
        if place > 0 {
            put(&mut text, &number_text(alloc, u64::from(number)));
        }
        put(&mut text, piece);
    }
    text
}

// What a command does that a heading asks.
fn answer_for(alloc: Global, heading: Heading, heard: &Heard) -> String {
    match heading {
        Heading::Sheet => answer_with(alloc, &words_of_svg(alloc, text_of(&heard.written)), heard),
        Heading::Story => answer_with(alloc, text_of(story_in(&heard.written)), heard),
        Heading::Image => digits_of(alloc, &heard.written),
        Heading::Notices => copied(alloc, &heard.told),
        _ => answer_of(alloc, heard),
    }
}

// Adds what a command does wrong where devices fail, with this as the file `made` and this on standard input.
fn put_wrong<'x>(
    texts: &'x Texts,
    line: &'x str,
    made: &'x [u8],
    input: &'x [u8],
    wrong: &mut String,
) {
    let asked = asked_with(texts, line, made, input);
    let whole = try_devices(&asked, DEVICES, wrong);
    try_closed(&asked, &whole, wrong);
}

// What the debug adapter does that is sent this; what it does wrong where its streams fail is added.
fn heard_talking<'x>(texts: &'x Texts, sent: &'x [u8], wrong: &mut String) -> Heard {
    let asked = asked_with(texts, "vcm dap", &[], sent);
    try_devices(&asked, STREAMS, wrong)
}

impl Script {
    /// No text yet.
    pub(crate) fn new(alloc: Global) -> Script {
        Script {
            texts: Texts::new(alloc),
            title: String::new(alloc),
            body: String::new(alloc),
            repeated: String::new(alloc),
            times: 0,
            tally: Tally::new(alloc),
        }
    }

    /// Adds a file that launches of the debug adapter open.
    pub(crate) fn add_file(&mut self, name: &str, bytes: Vec<u8>) {
        self.texts.add_file(name, bytes);
    }

    /// Reads one more line.
    pub(crate) fn take(&mut self, line: &str) {
        match line.strip_prefix(MARK) {
            Some(title) => self.take_heading(title),
            None if self.times > 0 => {
                put(&mut self.repeated, line);
                put(&mut self.repeated, "\n");
            }
            None => self.take_line(line),
        }
    }

    // Reads a heading: one that goes on with what stands below the last one, or another.
    fn take_heading(&mut self, title: &str) {
        self.repeat();
        if title == "then" {
            return;
        }
        if let Some(times) = times_of(title) {
            self.times = times;
            return;
        }
        self.end();
        self.title = copied(self.texts.alloc, title);
    }

    // Reads the lines that stand several times, with their number.
    fn repeat(&mut self) {
        let alloc = self.texts.alloc;
        let lines = taken(alloc, &mut self.repeated);
        let times = std::mem::replace(&mut self.times, 0);
        for number in 0..times {
            for line in lines.lines() {
                self.take_line(&numbered(alloc, line, number));
            }
        }
    }

    // Reads a line that is no heading.
    fn take_line(&mut self, line: &str) {
        match heading_of(&self.title) {
            Heading::Refused => self.judge_refusal(line),
            Heading::Images => self.judge_image(line),
            Heading::Words => self.judge_words(line),
            Heading::Explain => self.judge_explained(line),
            Heading::Unexplained => self.judge_unexplained(line),
            _ => {
                put(&mut self.body, line);
                put(&mut self.body, "\n");
            }
        }
    }

    /// Ends the text, and judges the examples of explanations.
    pub(crate) fn finish(&mut self) {
        self.repeat();
        self.end();
        judge_examples(self.texts.alloc, &mut self.tally);
    }

    // Ends what stands below a heading: it is set, or judged.
    fn end(&mut self) {
        let alloc = self.texts.alloc;
        let body = taken(alloc, &mut self.body);
        match heading_of(&self.title) {
            Heading::Remarks | Heading::Refused | Heading::Images => {}
            Heading::Words | Heading::Explain | Heading::Unexplained => {}
            Heading::Part => self.texts.part = body,
            Heading::Probe => self.texts.probe = body,
            Heading::Program => self.texts.program = body,
            Heading::Statements => self.texts.program = program_of(alloc, &body),
            Heading::Commands => self.texts.commands = body,
            heading => self.judge_section(heading, &body),
        }
    }

    // Counts an answer below the heading, with what stands behind that.
    fn judge(&mut self, more: &str, wanted: &str, found: &str) {
        let title = joined(self.texts.alloc, &[&self.title, more]);
        self.tally.judge(&title, &self.texts.program, wanted, found);
    }

    // Judges what stands below a heading.
    fn judge_section(&mut self, heading: Heading, body: &str) {
        match heading {
            Heading::Messages => self.judge_messages(body),
            Heading::Adapter => self.judge_talk(body),
            Heading::Unlisted => {
                let mut wanted = copied(self.texts.alloc, behind_word(&self.title));
                put(&mut wanted, "\nstatus 1\n");
                self.judge_listing(body, &wanted)
            }
            Heading::Assembled => self.judge_listing(body, "status 0\n"),
            Heading::Unknown => self.judge("", body, "nothing\n"),
            _ => self.judge_command(heading, body),
        }
    }

    // Judges what a command tells of each of its faults.
    fn judge_messages(&mut self, wanted: &str) {
        let found = messages(self.texts.alloc, behind_word(&self.title));
        self.judge("", wanted, &found);
    }

    // Judges what is made of a listing, which has this besides.
    fn judge_listing(&mut self, listing: &str, wanted: &str) {
        let alloc = self.texts.alloc;
        let asked = asked_with(&self.texts, "vcm asm made image", listing.as_bytes(), &[]);
        let found = answer_with(alloc, "", &heard_of(&asked));
        self.judge("", wanted, &found);
        if listing.len() <= LONG {
            let wrong = self.wrong_with("vcm asm made image", listing.as_bytes(), &[]);
            self.judge(FAILING, "", &wrong);
        }
    }

    // What a command does wrong where devices fail, with this as the file `made` and this on standard input.
    fn wrong_with(&self, line: &str, made: &[u8], input: &[u8]) -> String {
        let mut wrong = String::new(self.texts.alloc);
        put_wrong(&self.texts, line, made, input, &mut wrong);
        wrong
    }

    // Judges what comes back of what is sent to the debug adapter.
    fn judge_talk(&mut self, talk: &str) {
        let alloc = self.texts.alloc;
        let sent = sent_in(alloc, talk);
        let mut wrong = String::new(alloc);
        let heard = heard_talking(&self.texts, &sent, &mut wrong);
        let found = talk_of(alloc, &heard);
        self.judge("", &wanted_in(alloc, talk), &found);
        self.judge(FAILING, "", &wrong);
    }

    // Judges what a command answers, and what it does where devices fail.
    fn judge_command(&mut self, heading: Heading, wanted: &str) {
        let found = self.found(heading);
        self.judge("", wanted, &found);
        if !self.is_long() && !has_many_steps(wanted) {
            let wrong = self.wrong(heading);
            self.judge(FAILING, "", &wrong);
        }
    }

    // Whether a text that is set is too long for a command to be asked again.
    fn is_long(&self) -> bool {
        self.texts.part.len() > LONG
            || self.texts.program.len() > LONG
            || self.texts.commands.len() > LONG
    }

    // The file `made` that a heading asks for.
    fn made(&self, heading: Heading) -> Vec<u8> {
        match heading {
            Heading::OfImage => image_of(&self.texts),
            _ => Vec::new(self.texts.alloc),
        }
    }

    // What a heading asks by a command line.
    fn asked<'a>(&'a self, heading: Heading, line: &'a str, made: &'a [u8]) -> Asked<'a> {
        Asked {
            texts: &self.texts,
            line,
            made,
            input: self.texts.commands.as_bytes(),
            is_typed: matches!(heading, Heading::Talked),
        }
    }

    // What a command answers, with what differs in what else it is asked.
    fn found(&self, heading: Heading) -> String {
        let alloc = self.texts.alloc;
        let made = self.made(heading);
        let line = line_of(alloc, &self.title, u64::MAX);
        let heard = heard_of(&self.asked(heading, &line, &made));
        match heading {
            Heading::Run => self.run_answer(&heard),
            Heading::Listing => self.listing_answer(&heard),
            Heading::Adapt => self.adapt_answer(&heard),
            _ => answer_for(alloc, heading, &heard),
        }
    }

    // What a run answers, and what differs by another way.
    fn run_answer(&self, heard: &Heard) -> String {
        let mut found = answer_of(self.texts.alloc, heard);
        let ran = Ran {
            texts: &self.texts,
            steps: behind_word(&self.title),
            heard,
        };
        if heard.status == 0 || heard.status == 3 || heard.status == 4 {
            put_ways(&ran, &mut found);
        }
        found
    }

    // The listing, and what differs in its image or in the listing of that.
    fn listing_answer(&self, heard: &Heard) -> String {
        let mut found = answer_of(self.texts.alloc, heard);
        let image = heard_with(&self.texts, "vcm asm made image", &heard.written, &[]).written;
        if image.as_slice() != image_of(&self.texts).as_slice() {
            put(&mut found, "another image\n");
        }
        let again = heard_with(&self.texts, "vcm list made", &image, &[]).written;
        if again.as_slice() != heard.written.as_slice() {
            put(&mut found, "another listing\n");
        }
        found
    }

    // An adapted text with what is told beside it, and what its check answers. Where the check refuses it, that is told beside it too. A text that is refused
    // itself is adapted to none.
    fn adapt_answer(&self, heard: &Heard) -> String {
        let alloc = self.texts.alloc;
        if heard.written.is_empty() {
            return answer_of(alloc, heard);
        }
        let checked = heard_with(&self.texts, "vcm check made", &heard.written, &[]);
        let told = if checked.status == 0 {
            heard.told.as_str()
        } else {
            heard
                .told
                .strip_suffix(checked.told.as_str())
                .unwrap_or("nothing of that\n")
        };
        let mut found = copied(alloc, text_of(&heard.written));
        put(&mut found, told);
        put(&mut found, &answer_of(alloc, &checked));
        if (heard.status == 0) != (is_whole(told) && checked.status == 0) {
            put(&mut found, "another status of vcm adapt\n");
        }
        found
    }

    // What a command does wrong where devices fail, a line each.
    fn wrong(&self, heading: Heading) -> String {
        let alloc = self.texts.alloc;
        let mut wrong = String::new(alloc);
        let made = self.made(heading);
        let line = line_of(alloc, &self.title, FEW);
        let asked = self.asked(heading, &line, &made);
        // Of many programs one that can't be read is a line of the answer.
        if line.starts_with("vcm judge ") {
            return wrong;
        }
        let whole = try_devices(&asked, DEVICES, &mut wrong);
        try_closed(&asked, &whole, &mut wrong);
        if matches!(heading, Heading::Run) {
            self.put_run_wrong(&whole, &mut wrong);
        }
        wrong
    }

    // The same of the run of the program's image and, where the run ends in few steps, of the job.
    fn put_run_wrong(&self, whole: &Heard, wrong: &mut String) {
        let rest = behind_word(&self.title);
        let line = line_with(self.texts.alloc, "vcm run made t.toml", rest, "", FEW);
        put_wrong(&self.texts, &line, &image_of(&self.texts), &[], wrong);
        if whole.status != 4 {
            put_wrong(
                &self.texts,
                "vcm",
                &[],
                job_of(&self.texts).as_bytes(),
                wrong,
            );
        }
    }

    // What a command answers that is given this as the file `made`.
    fn made_answer(&self, line: &str, made: &[u8]) -> String {
        let heard = heard_with(&self.texts, line, made, &[]);
        answer_of(self.texts.alloc, &heard)
    }

    // Judges a statement that is to be refused as the heading says.
    fn judge_refusal(&mut self, line: &str) {
        let alloc = self.texts.alloc;
        let program = program_of(alloc, &joined(alloc, &[line, "\n"]));
        let mut wanted = copied(alloc, behind_word(&self.title));
        put(&mut wanted, " line 3\nstatus 1\n");
        let found = self.made_answer("vcm check made", program.as_bytes());
        self.judge_line(line, &wanted, &found);
    }

    // Judges an image that is to be refused as the heading says.
    fn judge_image(&mut self, line: &str) {
        let alloc = self.texts.alloc;
        let mut wanted = copied(alloc, behind_word(&self.title));
        put(&mut wanted, "\nstatus 1\n");
        let image = bytes_of(alloc, line);
        let found = self.made_answer("vcm list made", &image);
        self.judge_line(line, &wanted, &found);
    }

    // Judges what a command line asks for.
    fn judge_words(&mut self, line: &str) {
        let alloc = self.texts.alloc;
        let wanted = copied(alloc, behind_word(&self.title));
        self.judge_line(line, &wanted, &words_answer(alloc, line));
    }

    // What `vcm explain` does with the words of a line.
    fn heard_explained(&self, line: &str) -> Heard {
        let line = joined(self.texts.alloc, &["vcm explain ", line]);
        heard_with(&self.texts, &line, &[], &[])
    }

    // Judges the first line of the explanation of words.
    fn judge_explained(&mut self, line: &str) {
        let heard = self.heard_explained(line);
        let wanted = copied(self.texts.alloc, behind_word(&self.title));
        self.judge_line(line, &wanted, first_line(text_of(&heard.written)));
    }

    // Judges what is told where words have no explanation.
    fn judge_unexplained(&mut self, line: &str) {
        let alloc = self.texts.alloc;
        let heard = self.heard_explained(line);
        let wanted = joined(alloc, &["2 usage: nothing is known of ", line]);
        let status = number_text(alloc, u64::from(heard.status));
        let found = joined(alloc, &[&status, " ", first_line(&heard.told)]);
        self.judge_line(line, &wanted, &found);
    }

    // Counts the answer to a line.
    fn judge_line(&mut self, line: &str, wanted: &str, found: &str) {
        self.tally.judge(&self.title, line, wanted, found);
    }

    /// How the answers were.
    pub(crate) fn tally(&self) -> &Tally {
        &self.tally
    }
}
