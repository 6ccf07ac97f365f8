//! Threads of the host that call one kernel, each by a seat of its own, seats that don't fit, and workers that share work:
//! what no text can say, so that it is no case.
//!
//! The crate has only tests. It knows no command line, and no words of `--explain`.
#![tactic(auto)]

#[cfg(test)]
mod callers;
#[cfg(test)]
mod eight_cores;
#[cfg(test)]
mod gate;
#[cfg(test)]
mod legal;
#[cfg(test)]
mod limits;
#[cfg(test)]
mod memory;
#[cfg(test)]
mod rounds;
#[cfg(test)]
mod same;
#[cfg(test)]
mod scenes;
#[cfg(test)]
mod sharing;
#[cfg(test)]
mod strangers;
#[cfg(test)]
mod systems;
#[cfg(test)]
mod two_cores;
#[cfg(test)]
mod uncalled;
