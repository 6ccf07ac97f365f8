//! System descriptions of Microkit as data, and how their texts are read.
//!
//! The crate knows nothing of a kernel or a policy.
#![tactic(auto)]

mod attributes;
mod channels;
mod description;
mod domains;
mod draft;
mod flaws;
mod forms;
mod images;
mod kinds;
mod labels;
mod laws;
mod names;
mod numbers;
mod reading;
mod regions;
mod rules;

pub use description::{
    Channel, Description, Domain, End, Id, Interrupt, Machine, Map, Page, Port, Processor, Region,
    Schedule, User, Variable,
};
pub use domains::MAX_DOMAINS;
pub use flaws::{ElementFault, Flaw, ReadError, Spot};
pub use forms::{MAX_ID, MAX_PRIORITY, has_form};
pub use kinds::{Kind, kind_within};
pub use labels::{Subject, label_names, subjects_of};
pub use laws::a_description_says_what_its_text_says;
pub use names::{MAX_LABEL_LENGTH, Part, objects_have_names_of_their_own};
pub use numbers::number_of;
pub use reading::{read_description, read_elements};
pub use rules::{Form, Need, Rule, rules_of};
