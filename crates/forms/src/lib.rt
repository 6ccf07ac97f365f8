//! The files, the forms of their lines, and what is said of a line that isn't spelled as its form has it.
//!
//! It knows nothing of a kernel or a policy.
#![tactic(auto)]

mod classes;
mod file;
mod form;
mod layout;
mod lines;
mod nearest;
mod offers;
mod outcomes;
mod shapes;
mod telling;
mod wanted;

pub use file::File;
pub use form::{Form, call_named, form_of};
pub use layout::{
    LayoutFlaw, OfLayout, before_of, bytes_flaw, formless_flaw, header_flaw, section_flaw,
};
pub use lines::{Line, Lines, Shown, has_word, line_at, part, text_of, word};
pub use nearest::{LISTED, nearest_name, write_more};
pub use offers::{near_layout, near_word};
pub use outcomes::{OutcomeFlaw, outcome_flaw};
pub use shapes::shape_flaw;
pub use wanted::{NumberFlaw, Wanted, WordFlaw, decimal, hexadecimal, kind_number, right_number};
