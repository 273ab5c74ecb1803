//! A picture of a workpiece and of the way of the probe, as SVG.
#![tactic(auto)]

mod blocks;
mod drawing;
mod drawn;
mod heading;
mod laws;
mod marks;
mod names;
mod picture;
mod shapes;
mod shown;
mod span;
mod strips;
mod view;
mod way;
mod whole;
mod window;

pub use drawing::{begin_view, scene_shapes};
pub use heading::first_line;
pub use laws::{each_mark_is_drawn, names_are_apart};
pub use marks::{are_few, contact_of};
pub use names::{label_beside, name_at};
pub use picture::{PictureFault, put_clips, window_shown, write_picture};
pub use shapes::{Shape, Tip, Words, put_shapes, step_of};
pub use view::{Scope, View, right_axis, scope_of, spot_of, up_axis};
pub use window::Window;
