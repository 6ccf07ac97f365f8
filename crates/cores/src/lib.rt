//! One kernel for several threads, each of which calls it by a seat of its own.
//!
//! All calls stand in one history, and each seat sees a beginning of it. A script is split so: a
//! worker for each core makes its events, side by side.
//!
//! It knows no text.
#![tactic(auto)]

mod board;
mod desk;
mod meeting;
mod naming;
mod opened;
mod running;
mod safety;
mod seat;
mod splitting;
mod view;
mod word;
mod workers;

pub use meeting::calls_after_a_meeting_come_after_both;
pub use naming::Naming;
pub use opened::{MAX_SEATS, Opened};
pub use running::Kernel;
pub use safety::seen_histories_are_safe;
pub use seat::Seat;
pub use splitting::split;
pub use view::Noted;
