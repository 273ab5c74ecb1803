//! What is printed of a run of a producer's text as it stands, and what is reported of it.

use crate::whole_points::{PointRow, untried_points, with_rows};
use std::alloc::{AllocError, Global};
use std::fmt::Write as _;
use vcm_boxes::Boxes;
use vcm_devices::{
    NamedSetting, Request, View, base_name, is_sheet, output, print_bytes, title_of, titles_of,
    write_given, written,
};
use vcm_job::{Done, Given, show_given};
use vcm_loader::load;
use vcm_marks::{Mark, PlacedMark};
use vcm_messages::{Message, message_of};
use vcm_motion::AnyPart;
use vcm_num::{Items, NoMemory};
use vcm_part::PartData;
use vcm_remarks::NumberedRemark;
use vcm_sheet::Lines;
use vcm_short_names::{ShortName, lengthen_names};
use vcm_untried::{
    Counts, Marking, NamedFrame, behind_ways, count_remarks, mark_remarks, standing_of,
    untried_text, was_all_tried, way_text,
};
use vcm_usage::{Choice, Verb};
use vcm_values::variable_named;
use vcm_views::{
    AllContacts, Clearance, FirstContacts, Picture, Points, SheetView, Untried, Values, Why,
};
use vcm_way::follow;
use vcm_whole::Facts;

/// A program as it is run, with what is told of it, and the text as it was read; as it is written it has its text beside it, from which its calls are told.
#[derive(Drop)]
pub struct Running {
    pub given: Given,
    pub remarks: Vec<NumberedRemark>,
    pub facts: Facts,
    pub names: Items<ShortName>,
    pub source: Vec<u8>,
}

/// What a view is asked for beside a run: the lines of a sheet, and the boxes of a probe, if one is named.
#[derive(Drop)]
pub struct Beside {
    pub lines: Lines,
    pub boxes: Option<Boxes>,
}

/// What is reported of a run, in lines, and whether all of it was tried; what stands behind the number of its ways; and what its steps report, for a view that shows
/// them. Of a text that is run as it is written all of it is empty.
#[derive(Drop)]
pub struct Report {
    pub text: Vec<u8>,
    pub is_whole: bool,
    pub lines: Vec<Vec<u8>>,
    pub counts: Counts,
    pub marking: Option<Marking>,
    behind_ways: Vec<u8>,
}

impl Report {
    // The steps whose ways begin elsewhere.
    fn elsewhere(&self) -> &[u64] {
        match &self.marking {
            Some(marking) => marking.elsewhere.as_slice(),
            None => &[],
        }
    }

    /// What stands behind the number of ways.
    pub(crate) fn behind_ways(&self) -> &[u8] {
        self.behind_ways.as_slice()
    }

    // What wasn't tried, for a picture.
    fn untried(&self) -> Untried<'_> {
        Untried {
            lines: self.lines.as_slice(),
            elsewhere: self.elsewhere(),
        }
    }
}

// The most lines of a report that a view has in its head; where there are more, one says how many are left out.
const MOST_LINES: usize = 24;

// How many more lines there are.
fn more_line(alloc: Global, more: usize) -> Result<Vec<u8>, AllocError> {
    let mut line = String::new(alloc);
    write!(line, "and {more} lines more")?;
    Ok(line.into_bytes())
}

// The lines of a text.
fn lines_of(alloc: Global, text: &[u8]) -> Result<Vec<Vec<u8>>, AllocError> {
    let mut lines = Vec::new(alloc);
    let mut more: usize = 0;
    for line in text.split(|byte| *byte == b'\n') {
        if line.is_empty() {
            continue;
        }
        if lines.len() < MOST_LINES {
            lines.push(Vec::from_slice(alloc, line)?)?;
        } else {
            more = more.saturating_add(1);
        }
    }
    if more != 0 {
        lines.push(more_line(alloc, more)?)?;
    }
    Ok(lines)
}

// Whether a view shows what steps report.
fn shows_steps(verb: Verb) -> bool {
    matches!(verb, Verb::Picture | Verb::View | Verb::Points)
}

/// What is reported of a run that a command shows; none where memory is refused.
pub fn report_of(
    alloc: Global,
    verb: Verb,
    setting: &NamedSetting,
    running: &Running,
    frames: &[NamedFrame],
) -> Option<Report> {
    let Ok(loaded) = load(alloc, &running.given.image) else {
        return None;
    };
    let Ok(workpiece) = AnyPart::of(alloc, &setting.part) else {
        return None;
    };
    let steps = setting.steps;
    let Ok(counts) = count_remarks(alloc, &workpiece, &loaded, steps, &running.remarks) else {
        return None;
    };
    let text = untried_text(alloc, &counts, frames).ok()?;
    let is_put = !is_written(&running.given);
    let marking = if is_put && shows_steps(verb) {
        Some(mark_remarks(alloc, &workpiece, &loaded, steps, &running.remarks).ok()?)
    } else {
        None
    };
    let behind_ways = if is_put {
        behind_ways(alloc, &counts).ok()?
    } else {
        Vec::new(alloc)
    };
    Some(Report {
        lines: lines_of(alloc, &text).ok()?,
        text,
        is_whole: was_all_tried(&counts),
        counts,
        marking,
        behind_ways,
    })
}

// Whether a text is run as it is written: then it has no remarks.
fn is_written(given: &Given) -> bool {
    given.text.is_some()
}

// ---- around a view

/// What stands around a view: in front of it, where the run came to its end, and behind it; and among the rows of points those that weren't touched.
#[derive(Drop)]
pub struct Around {
    front: Vec<u8>,
    behind: Vec<u8>,
    rows: Vec<PointRow>,
}

impl Around {
    // Whether nothing does.
    fn is_empty(&self) -> bool {
        self.front.is_empty() && self.behind.is_empty() && self.rows.is_empty()
    }
}

// What is told of the way on which a run stops; none where memory is refused.
fn way_told(
    alloc: Global,
    setting: &NamedSetting,
    given: &Given,
    frames: &[NamedFrame],
) -> Option<Vec<u8>> {
    let Ok(loaded) = load(alloc, &given.image) else {
        return None;
    };
    let Ok(workpiece) = AnyPart::of(alloc, &setting.part) else {
        return None;
    };
    let Ok(standing) = standing_of(alloc, &workpiece, &loaded, setting.steps) else {
        return None;
    };
    way_text(alloc, &standing, frames).ok()
}

// How many of these marks are pieces of the way.
fn pieces_in(marks: &[PlacedMark]) -> u64 {
    let mut count: u64 = 0;
    for placed in marks {
        if let Mark::Goes(_) = placed.mark {
            count = count.saturating_add(1);
        }
    }
    count
}

// How many ways a run goes that comes to its end; none where memory is refused.
fn ways_gone(alloc: Global, setting: &NamedSetting, given: &Given) -> Option<u64> {
    let part = &setting.part;
    let Ok(loaded) = load(alloc, &given.image) else {
        return None;
    };
    let Ok(workpiece) = AnyPart::of(alloc, part) else {
        return None;
    };
    let Ok(followed) = follow(alloc, &loaded, &workpiece, part, setting.steps) else {
        return None;
    };
    let way = &followed.way;
    Some(way.left_out().saturating_add(pieces_in(way.marks())))
}

// The line that tells how many ways there were, and what of the run wasn't tried.
fn ways_line(alloc: Global, ways: u64, report: &Report) -> Result<Vec<u8>, AllocError> {
    let mut line = String::new(alloc);
    let behind = std::str::from_utf8(&report.behind_ways).unwrap_or("");
    writeln!(line, "ways {ways}{behind}")?;
    Ok(line.into_bytes())
}

// The rows of the points that weren't touched; none where memory is refused.
fn points_untouched(
    alloc: Global,
    given: &Given,
    report: &Report,
    is_machine: bool,
) -> Option<Vec<PointRow>> {
    let Some(marking) = &report.marking else {
        return Some(Vec::new(alloc));
    };
    let Ok(loaded) = load(alloc, &given.image) else {
        return None;
    };
    let Ok(tables) = loaded.tables(alloc) else {
        return None;
    };
    untried_points(alloc, &loaded, &tables, marking, is_machine).ok()
}

/// What stands around the view that is asked for: of `why` what is told of the way on which the run stops, of `margin` how many ways there were, and of `points` those
/// that weren't touched, where what is known is carried; none where memory is refused.
pub fn around_view(
    alloc: Global,
    request: &Request<'_, '_>,
    setting: &NamedSetting,
    given: &Given,
    report: &Report,
    frames: &[NamedFrame],
) -> Option<Around> {
    let mut around = Around {
        front: Vec::new(alloc),
        behind: Vec::new(alloc),
        rows: Vec::new(alloc),
    };
    match request.verb() {
        Verb::Why if !is_written(given) => {
            around.behind = way_told(alloc, setting, given, frames)?;
        }
        Verb::Margin if !is_written(given) => {
            let ways = ways_gone(alloc, setting, given)?;
            around.front = ways_line(alloc, ways, report).ok()?;
        }
        Verb::Points => {
            let is_machine = request.has(Choice::Machine);
            around.rows = points_untouched(alloc, given, report, is_machine)?;
        }
        _ => {}
    }
    Some(around)
}

// ---- the view

// The names of the files of a run, without their folders, and the title of the program.
#[derive(Clone, Copy)]
struct FileNames<'a> {
    program: &'a [u8],
    part: &'a [u8],
    title: &'a [u8],
}

// What a view of a run shows: the run, and what is told beside it.
#[derive(Clone, Copy)]
struct Shown<'a> {
    files: FileNames<'a>,
    setting: &'a NamedSetting,
    beside: &'a Beside,
    report: &'a Report,
}

// The picture that is asked for, or its sheet.
fn picture_of<'a>(request: &Request<'_, '_>, shown: Shown<'a>) -> View<'a> {
    let untried = shown.report.untried();
    if is_sheet(request) {
        View::Sheet(SheetView {
            titles: titles_of(
                request,
                shown.files.program,
                shown.files.part,
                shown.files.title,
                shown.setting.block_names.as_slice(),
                shown.beside.lines,
                untried,
            ),
        })
    } else {
        View::Picture(Picture {
            is_close: request.has(Choice::Close),
            untried,
        })
    }
}

// The view that a command shows.
fn view_of<'a>(request: &Request<'_, '_>, shown: Shown<'a>) -> View<'a> {
    let block_names = shown.setting.block_names.as_slice();
    match (request.verb(), &shown.beside.boxes) {
        (Verb::Trace, _) => View::Trace,
        (Verb::Points, _) => View::Points(Points {
            is_machine: request.has(Choice::Machine),
        }),
        (Verb::Why, Some(boxes)) => View::First(FirstContacts { boxes, block_names }),
        (Verb::Why, None) => View::Why(Why { block_names }),
        (Verb::Contacts, _) => View::Contacts(AllContacts { block_names }),
        (Verb::Margin, _) => View::Margin,
        (Verb::Clearance, Some(boxes)) => View::Clearance(Clearance {
            boxes,
            untried: shown.report.behind_ways(),
            block_names,
            tells_calls: true,
        }),
        (Verb::Picture, _) => picture_of(request, shown),
        _ => View::Result,
    }
}

// A view of a run of what was given, as it is printed: with the names that the text has, and with what stands around it.
fn text_of_view<'a>(
    alloc: Global,
    view: &View<'_>,
    setting: &NamedSetting,
    given: Given,
    names: &[ShortName],
    around: &Around,
    input: &'a str,
) -> Result<(Done, Vec<u8>), Message<'a>> {
    let mut shown = Vec::new(alloc);
    let done = match write_given(alloc, view, given, &setting.part, setting.steps, &mut shown) {
        Ok(done) => done,
        Err(fault) => return Err(short_of_memory(message_of(fault, input))),
    };
    if !around.rows.is_empty() {
        match with_rows(alloc, &shown, around.rows.as_slice()) {
            Ok(all) => shown = all,
            Err(_) => return Err(Message::NoMemory),
        }
    }
    let Ok(text) = lengthen_names(alloc, names, &shown) else {
        return Err(Message::NoMemory);
    };
    let front: &[u8] = if done.status == 0 {
        around.front.as_slice()
    } else {
        &[]
    };
    // Of a contact of a box another way is told than the one on which the run stops.
    let behind: &[u8] = if shown.starts_with(b"contact ") {
        &[]
    } else {
        around.behind.as_slice()
    };
    match joined(alloc, &[front, text.as_slice(), behind]) {
        Ok(text) => Ok((done, text)),
        Err(_) => Err(Message::NoMemory),
    }
}

// Texts, one behind the other.
fn joined(alloc: Global, texts: &[&[u8]]) -> Result<Vec<u8>, AllocError> {
    let mut all = Vec::new(alloc);
    for text in texts {
        all.extend_from_slice(text)?;
    }
    Ok(all)
}

// What is written to memory fails for want of it alone.
fn short_of_memory(message: Message<'_>) -> Message<'_> {
    match message {
        Message::Write { .. } => Message::NoMemory,
        message => message,
    }
}

/// Prints a view of a run of what was given as it is written.
pub fn print_plain<'a, R: Print + AllocGlobal>(
    rt: &R,
    view: &View<'_>,
    setting: &NamedSetting,
    given: Given,
    input: &'a str,
) -> Result<Done, Message<'a>> {
    let mut out = output(rt)?;
    let done = write_given(
        rt.alloc(),
        view,
        given,
        &setting.part,
        setting.steps,
        &mut out,
    );
    written(&mut out, done.map_err(|fault| message_of(fault, input)))
}

// Prints a view of a run of what was given, with the names that the text has, and with what stands around it.
fn print_given<'a, R: Print + AllocGlobal>(
    rt: &R,
    view: View<'_>,
    setting: &NamedSetting,
    given: Given,
    names: &[ShortName],
    around: &Around,
    input: &'a str,
) -> Result<Done, Message<'a>> {
    if names.is_empty() && around.is_empty() {
        return print_plain(rt, &view, setting, given, input);
    }
    let (done, text) = text_of_view(rt.alloc(), &view, setting, given, names, around, input)?;
    match print_bytes(rt, &text) {
        Ok(()) => Ok(done),
        Err(message) => Err(message),
    }
}

// Prints the view of a run that was asked for.
fn print_shown<'a, R: Print + AllocGlobal>(
    rt: &R,
    request: &Request<'a, '_>,
    shown: Shown<'_>,
    given: Given,
    names: &[ShortName],
    around: &Around,
) -> Result<Done, Message<'a>> {
    let view = view_of(request, shown);
    print_given(
        rt,
        view,
        shown.setting,
        given,
        names,
        around,
        request.input(),
    )
}

// The title of a program that was given, or the name of its file.
fn title_given<'a>(given: &'a Given, name: &'a [u8]) -> &'a [u8] {
    match &given.text {
        Some(text) => title_of(text.as_slice(), name),
        None => name,
    }
}

// Prints the view of a run that was asked for, with this title.
fn print_titled<'a, 'v, R: Print + AllocGlobal>(
    rt: &R,
    request: &'v Request<'a, '_>,
    setting: &'v NamedSetting,
    beside: &'v Beside,
    given: Given,
    names: &[ShortName],
    report: &'v Report,
    around: &Around,
    title: &'v [u8],
) -> Result<Done, Message<'a>> {
    let files = FileNames {
        program: base_name(request.input()),
        part: base_name(request.part()),
        title,
    };
    let shown = Shown {
        files,
        setting,
        beside,
        report,
    };
    print_shown(rt, request, shown, given, names, around)
}

/// Prints what was asked for of a run: a view, or the values of variables.
pub fn print_asked<'a, R: Print + AllocGlobal>(
    rt: &R,
    request: &Request<'a, '_>,
    setting: &NamedSetting,
    beside: &Beside,
    given: Given,
    names: &[ShortName],
    report: &Report,
    around: &Around,
) -> Result<Done, Message<'a>> {
    let input = request.input();
    match names_shown(request) {
        Some(shown) => print_values(rt, &setting.part, given, shown, setting.steps, input),
        None => {
            let name = base_name(input);
            let Ok(title) = Vec::from_slice(rt.alloc(), title_given(&given, name)) else {
                return Err(Message::NoMemory);
            };
            print_titled(
                rt,
                &*request,
                &*setting,
                &*beside,
                given,
                names,
                &*report,
                around,
                title.as_slice(),
            )
        }
    }
}

// ---- variables

/// What is told where the names of variables aren't those of some.
pub const NAMES: Message<'static> = Message::Option {
    words: "--show wants names of variables of the program, with commas between them, as I or R#2",
};

/// The variables that are to be shown, where the command takes that.
pub fn names_shown<'a>(request: &Request<'a, '_>) -> Option<&'a str> {
    if request.usage().takes(Choice::Show) {
        request.value(Choice::Show)
    } else {
        None
    }
}

/// Where the variables of a program stand that have these names; none where one isn't there.
///
/// Errors: want of memory.
pub fn places_of(alloc: Global, image: &[u8], names: &str) -> Result<Option<Vec<u16>>, NoMemory> {
    let Ok(loaded) = load(alloc, image) else {
        return Err(NoMemory);
    };
    let Ok(tables) = loaded.tables(alloc) else {
        return Err(NoMemory);
    };
    let mut places = Vec::new(alloc);
    for name in names.split(',') {
        match variable_named(alloc, &tables, name.as_bytes())? {
            Some(place) => places.push(place)?,
            None => return Ok(None),
        }
    }
    Ok(Some(places))
}

// Prints the values of variables at the end of a run of what was given.
fn print_values<'a, R: Print + AllocGlobal>(
    rt: &R,
    part: &PartData,
    given: Given,
    names: &str,
    steps: u64,
    input: &'a str,
) -> Result<Done, Message<'a>> {
    let places = match places_of(rt.alloc(), &given.image, names) {
        Ok(Some(places)) => places,
        Ok(None) => return Err(NAMES),
        Err(_) => return Err(Message::NoMemory),
    };
    let mut out = output(rt)?;
    let view = Values { places: &places };
    let done = show_given(rt.alloc(), &view, given, part, steps, &mut out);
    written(&mut out, done.map_err(|fault| message_of(fault, input)))
}
