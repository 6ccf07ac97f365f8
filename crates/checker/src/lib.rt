//! The checker: the verdict on a capability table and a policy, with the table's certificate, and that on a table, a policy and a
//! certificate.
//!
//! It knows no claim, and no code of the kernel's calls.
#![tactic(auto)]

mod checking;
mod laws;
mod verifying;

pub use certificate::Certificate;
pub use checking::{CheckError, Verdict, check};
pub use deal::{Gate, Open};
pub use laws::upgraded_tables_are_judged_alike;
pub use verdict::{Accepted, Denial, Rules};
pub use verifying::{NotAccepted, verify, verify_by};
