//! The reader of XML, as system descriptions use it: elements, attributes and comments, within limits.
//!
//! `microkit` and `explain_descriptions` stand on it. It knows nothing of a kernel or a policy.
#![tactic(auto)]

mod characters;
mod cursor;
mod document;
mod element;
mod laws;
mod tags;
mod values;

pub use document::{MAX_ELEMENTS, MAX_LEVELS, MAX_TEXT_LENGTH, read_document};
pub use element::{Attribute, Element};
pub use laws::a_document_is_spelled;
pub use tags::MAX_ATTRIBUTES;
pub use values::MAX_VALUE_LENGTH;
