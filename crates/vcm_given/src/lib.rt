//! What a command line says of a producer's text, as statements of it: settings that the text is silent of, frames that lie elsewhere, answers to its questions.
#![tactic(auto)]

mod answers;
mod choices;
mod choosing;
mod fields;
mod frames;
mod missing;
mod spoken;
mod statements;
mod texts;
mod tips;
mod unused;
mod values;

pub use choices::{Answer, Choices, GivenFrame, GivenProbe, Value};
pub use choosing::choose;
pub use missing::{MissingProbe, missing_probes};
pub use texts::given_texts;
pub use tips::{OtherTip, Width, other_tips};
pub use unused::first_unused;
