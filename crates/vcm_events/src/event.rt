//! Events: what a statement does to what is known of the machine.

ghost use Rattle.std.specs.Prelude.{◌≡◌};
ghost use Rattle.vcm_items.specs.NameBytes.{IsName};
ghost use Rattle.vcm_events.specs.Events.{event_name, event_named, event_form, valued, lost, gained};

use vcm_expr::{Expr, Term};
use vcm_forms::{Form, Target};
use vcm_items::Name;
use vcm_num::{Literal, look_up};

/// What a statement of a producer's text does to what is known of the machine. It is said as an assignment of a whole number to a variable of its own, whose name
/// no text can write: 0 where something is lost, else what the event says.
#[derive(Clone, Copy)]
pub enum Event {
    /// A programmed mode, or none.
    Mode,
    /// The machine measures by points of the text, or may by its own.
    OwnPoints,
    /// The rotary table.
    Table,
    /// Scanning.
    Scanning,
    /// The unit of lengths.
    Unit,
    /// The approach of touches.
    Approach,
    /// The search.
    Search,
    /// The way back.
    Retract,
    /// Ways over a clearance surface.
    Clearance,
    /// The compensation of the tip.
    Compensation,
    /// Points of a qualification, or of another feature.
    Qualification,
    /// The way to the target of GOTARG.
    Target,
    /// Where the probe stands.
    Place,
    /// A motion that isn't tried.
    Untried,
    /// A point that isn't tried.
    UntriedPoint,
    /// The values of all variables.
    Values,
    /// The values of all features.
    Features,
    /// All frames that are saved.
    Frames,
    /// The current frame.
    Frame,
    /// Frames that are saved may be kept elsewhere.
    Saving,
    /// The current frame is the machine's.
    Machine,
    /// How many points a feature is measured by.
    Points,
    /// Which sensor is selected.
    Sensor,
    /// Which probe of a file is selected, by its number: 0 is none of the file's.
    Probe,
    /// The unit of angles.
    Angle,
    /// The plane that polar places are in.
    Plane,
    /// A polar place stands in the statements up to the next event: they are carried out where the plane and the unit of angles are known.
    Polar,
    /// The end of such statements; elsewhere a motion isn't tried.
    PolarMotion,
    /// The end of such statements; elsewhere a point isn't tried.
    PolarPoint,
    /// A datum is defined as a feature: said as an OBTAIN of it.
    Bind,
    /// A frame is made by its origins, which the statements up to the next frame give.
    Origins,
    /// An origin of a frame lies on a feature: said as an OBTAIN of its coordinate.
    Origin,
    /// One more value of a CASE.
    CaseValue,
    /// A frame that is saved is deleted: said as an OBTAIN of its name.
    DropFrame,
    /// A feature is deleted, or changes: said as an OBTAIN of it.
    DropFeature,
    /// A frame is kept elsewhere: said as an OBTAIN of its name.
    StoreFrame,
    /// A tip of another width than the part's is selected.
    Width,
    /// A feature is made of others, and has another measured value: said as an OBTAIN of it.
    Remake,
    /// A setting that isn't about points of the text.
    Depth,
    /// Output that isn't written.
    Unreported,
    /// The block of a CASE begins, behind its values.
    CaseBegins,
    /// A jump to a label that stands nowhere: it isn't known how the program goes on.
    Ends,
    /// Everything.
    All,
}

impl Event {
    /// The name of its variable.
    pub fn name(self) -> &'static [u8]
        ensures { result.now ≡ event_name self }
    {
        match self {
            Event::Mode => b"0MODE",
            Event::OwnPoints => b"0OWNPOINTS",
            Event::Table => b"0TABLE",
            Event::Scanning => b"0SCANNING",
            Event::Unit => b"0UNIT",
            Event::Approach => b"0APPROACH",
            Event::Search => b"0SEARCH",
            Event::Retract => b"0RETRACT",
            Event::Clearance => b"0CLEARANCE",
            Event::Compensation => b"0COMPENSATION",
            Event::Qualification => b"0QUALIFICATION",
            Event::Target => b"0TARGET",
            Event::Place => b"0PLACE",
            Event::Untried => b"0UNTRIED",
            Event::UntriedPoint => b"0UNTRIEDPOINT",
            Event::Values => b"0VALUES",
            Event::Features => b"0FEATURES",
            Event::Frames => b"0FRAMES",
            Event::Frame => b"0FRAME",
            Event::Saving => b"0SAVING",
            Event::Machine => b"0MACHINE",
            Event::Points => b"0POINTS",
            Event::Sensor => b"0SENSOR",
            Event::Probe => b"0PROBE",
            Event::Angle => b"0ANGLE",
            Event::Plane => b"0PLANE",
            Event::Polar => b"0POLAR",
            Event::PolarMotion => b"0POLARMOTION",
            Event::PolarPoint => b"0POLARPOINT",
            Event::Bind => b"0BIND",
            Event::Origins => b"0ORIGINS",
            Event::Origin => b"0ORIGIN",
            Event::CaseValue => b"0CASEVALUE",
            Event::DropFrame => b"0DROPFRAME",
            Event::DropFeature => b"0DROPFEATURE",
            Event::StoreFrame => b"0STOREFRAME",
            Event::Width => b"0WIDTH",
            Event::Remake => b"0REMAKE",
            Event::Depth => b"0DEPTH",
            Event::Unreported => b"0UNREPORTED",
            Event::CaseBegins => b"0CASEBEGINS",
            Event::Ends => b"0ENDS",
            Event::All => b"0ALL",
        }
    }

    /// The event whose variable has this name.
    pub fn named(name: &[u8]) -> Option<Event>
        ensures { result ≡ event_named name.now }
    {
        look_up(
            &[
                (b"0MODE", Event::Mode),
                (b"0OWNPOINTS", Event::OwnPoints),
                (b"0TABLE", Event::Table),
                (b"0SCANNING", Event::Scanning),
                (b"0UNIT", Event::Unit),
                (b"0APPROACH", Event::Approach),
                (b"0SEARCH", Event::Search),
                (b"0RETRACT", Event::Retract),
                (b"0CLEARANCE", Event::Clearance),
                (b"0COMPENSATION", Event::Compensation),
                (b"0QUALIFICATION", Event::Qualification),
                (b"0TARGET", Event::Target),
                (b"0PLACE", Event::Place),
                (b"0UNTRIED", Event::Untried),
                (b"0UNTRIEDPOINT", Event::UntriedPoint),
                (b"0VALUES", Event::Values),
                (b"0FEATURES", Event::Features),
                (b"0FRAMES", Event::Frames),
                (b"0FRAME", Event::Frame),
                (b"0SAVING", Event::Saving),
                (b"0MACHINE", Event::Machine),
                (b"0POINTS", Event::Points),
                (b"0SENSOR", Event::Sensor),
                (b"0PROBE", Event::Probe),
                (b"0ANGLE", Event::Angle),
                (b"0PLANE", Event::Plane),
                (b"0POLAR", Event::Polar),
                (b"0POLARMOTION", Event::PolarMotion),
                (b"0POLARPOINT", Event::PolarPoint),
                (b"0BIND", Event::Bind),
                (b"0ORIGINS", Event::Origins),
                (b"0ORIGIN", Event::Origin),
                (b"0CASEVALUE", Event::CaseValue),
                (b"0DROPFRAME", Event::DropFrame),
                (b"0DROPFEATURE", Event::DropFeature),
                (b"0STOREFRAME", Event::StoreFrame),
                (b"0WIDTH", Event::Width),
                (b"0REMAKE", Event::Remake),
                (b"0DEPTH", Event::Depth),
                (b"0UNREPORTED", Event::Unreported),
                (b"0CASEBEGINS", Event::CaseBegins),
                (b"0ENDS", Event::Ends),
                (b"0ALL", Event::All),
            ],
            name,
        )
    }
}

/// An event with a value, as a statement.
pub fn valued(event: Event, value: Expr) -> Form
    ensures { result ≡ valued event value }
{
    let name = Name::new(event.name());
    Form::Assignment(Target { name, expansion: 0 }, value)
}

/// An event with a whole number, as a statement.
pub fn numbered(event: Event, number: i64) -> Form
    ensures { result ≡ event_form event number }
{
    valued(event, Expr::leaf(Term::Number(Literal::Int(number))))
}

/// Something is lost.
pub fn lost(event: Event) -> Form
    ensures { result ≡ lost event }
{
    numbered(event, 0)
}

/// Something is known again, or happens.
pub fn gained(event: Event) -> Form
    ensures { result ≡ gained event }
{
    numbered(event, 1)
}
