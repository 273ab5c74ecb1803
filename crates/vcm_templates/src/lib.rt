//! How statements of a producer's text are put: the variables that carry what is known of the machine, what is asked of them, and the statements that are put
//! where it is known and where it isn't.
#![tactic(auto)]

mod besides;
mod carried;
mod exact;
mod expressions;
mod guarded;
mod lengths;
mod stack;
mod templates;

pub use besides::{Beside, Formula, carries_bounds};
pub use carried::{Carried, FEATURES_STEP, IMPLICIT, Item, UNKNOWN_SENSOR};
pub use exact::{exact_at, is_quotient};
pub use expressions::{
    are_current, both, either, has_form, in_frame, is_current, is_kept_here, is_known, knows_frame,
    number, same_as, truth,
};
pub use guarded::Guarded;
pub use lengths::{Kept, Length};
pub use templates::{
    FAR, ask, ask_all, ask_value, declare_bound, declare_item, elsewhere, end, frame_gone, go,
    go_to_end, gone, is_carried, know, lose, lose_all, lose_frame, lose_item, new_frame, raise,
    remark, save_frame, set, set_bound, set_item, set_near, set_number, stand, touched, untried,
    untried_point, where_known,
};
