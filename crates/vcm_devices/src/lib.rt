//! The commands of vcm on the standard devices and files: the command line, what is read, printed and told, and the exit status. Commands for
//! producers' texts, several probes and editors stand in the crates above.
#![tactic(auto)]

mod about;
mod closing;
mod debugging;
mod files;
mod hand;
mod jobs;
mod pages;
mod parts;
mod printing;
mod remarking;
mod request;
mod sheets;
mod showing;
mod talking;
mod values;
mod view;

pub use about::{about_of, view_fails};
pub use closing::fails_unless_closed;
pub use debugging::{debug_file, debug_text, unread_input};
pub use files::{asm_file, build_file, check_file, list_file};
pub use jobs::run_job;
pub use pages::{
    boxes_element_of, names_element, put_name, show_page, show_page_with, story_of, why_element,
};
pub use parts::{PartFile, moved_part, part_file_given, part_file_of, part_of, show_part};
pub use printing::{
    DASH, Outlet, Output, STANDARD_INPUT, bytes_of, fails, is_one_file, output, print_bytes,
    status_after, written,
};
pub use remarking::{remark_lines, remarks_text};
pub use request::{Request, matches_of, steps_of};
pub use sheets::{
    LINES, PAPERS, base_name, is_sheet, lines_given, lines_of, paper_given, show_picture, title_of,
    titles_of,
};
pub use showing::{
    NamedSetting, NamedView, Unread, boxes_of, named_setting_of, show_named, show_points,
    show_view, tell_unread,
};
pub use talking::{Terminals, Told, Voice, alone, fails_in_view, fails_twice, voice_of};
pub use values::show_result;
pub use view::{View, write_given};
