//! Commands of the program `confine`: their files are loaded, what they hold is judged, and the answer is told, which a
//! listener hears and the output gets.
//!
//! It knows no engine, no command line and no code of the kernel.
#![tactic(auto)]

mod answer;
mod choices;
mod end;
mod files;
mod given;
mod later;
mod listener;
mod load;
mod telling;

pub use answer::{Answer, Made, denied};
pub use captext::Fault;
pub use choices::{
    Form, Imported, OfPolicy, OfSystem, OnAccept, OnClose, OnImport, Picture, Search, Taken, Use,
};
pub use devices::{ReadError, Sink, Source};
pub use end::{Asked, End, Misuse};
pub use files::{Files, Loaded};
pub use given::{Described, Given, load_description, load_given};
pub use importing::Minting;
pub use later::{Entries, LaterFile, PolicyFile, Script, SecondFile, ThirdFile};
pub use listener::{Finding, Listener, Silence};
pub use load::{Stop, Three, Two, With, load_table, load_three, load_two, load_with};
pub use reptext::File;
pub use telling::tell;
pub use verdict::Rules;
