//! What a run shows: whether the last call of a script changes an object as a question asks, and
//! whether a script leads out of a policy.
//!
//! A script's run begins in a table's boot state. What is shown of a run is proved. Only `changes`,
//! `answering` and `is_near` promise nothing: a search chooses by them what to show.
//!
//! The crate looks for no run, and knows no text.
#![tactic(auto)]

mod comparing;
mod leaving;
mod lessening;
mod question;
mod reaching;
mod seeming;
mod showing;
mod sight;

pub use comparing::{differs, shrinks};
pub use leaving::{MOST_CALLS, leaves, lies_outside, place_outside};
pub use question::Question;
pub use reaching::reach;
pub use seeming::{answering, changes, is_near};
pub use showing::{makes, shows};
pub use sight::{Sight, look};
