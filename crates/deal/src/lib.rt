//! Work that is dealt to several workers: the results are those of one worker.
//!
//! It knows nothing of a kernel or a policy.
#![tactic(auto)]

mod gate;
mod work;
mod workers;

pub use gate::{Gate, Open};
pub use work::Work;
pub use workers::shares;
