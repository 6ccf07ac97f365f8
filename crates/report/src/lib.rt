//! The engines of the program `confine`: what they read from and write to, what they report, and
//! how they end.
//!
//! The crate knows no command line, and no words of `--explain`.
#![tactic(auto)]

mod asking;
mod checking;
mod claiming;
mod closing;
mod comparing;
mod describing;
mod flowing;
mod laws;
mod reaching;
mod replaying;
mod running;
mod showing;
mod splitting;
mod using;
mod verifying;

pub use asking::{ask, ask_policy};
pub use checking::check;
pub use claiming::check_claims;
pub use closing::the_sharp_policy_for_a_table_is_its_reach;
pub use commands::{
    Answer, Asked, Described, End, Fault, File, Files, Finding, Form, Given, Imported, Listener,
    Made, Minting, Misuse, OfPolicy, OfSystem, OnAccept, OnClose, OnImport, Picture, Search,
    Silence, Taken, Use,
};
pub use comparing::compare;
pub use deal::{Gate, Open};
pub use describing::import;
pub use devices::{ReadError, Sink, Source, Unopened, Watched, WriteError, open_result};
pub use laws::reports_are_functions_of_the_bytes;
pub use replaying::{answer_at, replay};
pub use running::run;
pub use splitting::run_split;
pub use verdict::Rules;
pub use verifying::verify;
