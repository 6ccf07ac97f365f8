//! Devices that a program reads from and writes to, which report whether they failed.
//!
//! It knows nothing of a kernel or a policy.
#![tactic(auto)]

mod bounded;
mod opened;
mod sink;
mod source;
mod watched;

pub use bounded::Bounded;
pub use opened::{Unopened, open_result};
pub use sink::{Sink, WriteError};
pub use source::{ReadError, Source};
pub use watched::Watched;
