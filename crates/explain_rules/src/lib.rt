//! Explains what rules require: on which grounds one asks for an edge, why one is broken, and what mends that; with the
//! words for edges, labels and places, the line that each part of a table comes from, and the element of a description.
//!
//! The crate knows no claim, no run, no device and no command.
#![tactic(auto)]

mod asked;
mod belongings;
mod closed_rules;
mod domains;
mod elements;
mod grounds;
mod label_sets;
mod lines;
mod naming;
mod nothing;
mod place_words;
mod places;
mod remedies;
mod sentences;
mod sheet;

pub use asked::{an_asked_edge_is_missing, asked_edge};
pub use belongings::Belonging;
pub use closed_rules::premises;
pub use domains::ReasonIn;
pub use elements::Element;
pub use grounds::{Grounds, View, Way, WayWords, first_grounds, first_premise, grounds_at};
pub use label_sets::LabelNames;
pub use lines::{line_of_edge, line_of_place};
pub use nothing::{push_not_allowed, push_nothing};
pub use place_words::{PlaceWords, remedy_at};
pub use places::{At, Start};
pub use remedies::Remedy;
pub use sentences::{
    EdgeAfter, EdgeLine, EdgeList, Lets, OtherWay, PlaceNames, Reason, comes_by_right,
    name_of_label, separator, verb,
};
pub use sheet::{Made, Sheet};
