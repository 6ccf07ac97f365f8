//! Sizes of a log and numbers of seats at their limits.
use crate::memory::made;
use crate::scenes::{Plan, carry_out, cores_of};
use crate::systems::TWO_CORES;
use cores::Opened;
use std::process::Abort;
use std::test::Fail;
use verdict::Accepted;

const CORES: [u64; 65] = [1; 65];

/// Returns the code by which a kernel of this size and this many seats is refused, 0 if it is opened.
fn code_of<R: AllocGlobal>(
    rt: &R,
    accepted: &Accepted<'_>,
    size: usize,
    cores: &[u64],
) -> Result<u64, Fail> {
    let cores = made(cores_of(rt.alloc(), cores))?;
    match Opened::open(rt.alloc(), accepted, size, &cores, 0) {
        Ok(opened) => {
            drop(opened);
            Ok(0)
        }
        Err(refusal) => Ok(refusal.code),
    }
}

fn has_code<R: Abort + AllocGlobal>(
    rt: &R,
    accepted: &Accepted<'_>,
    size: usize,
    seats: usize,
    code: u64,
) -> Result<(), Fail> {
    let cores = CORES.get(..seats).ok_or("so many cores")?;
    let found = code_of(rt, accepted, size, cores)?;
    assert!(rt; found == code);
    Ok(())
}

/// Asserts which sizes and numbers of seats are refused, and which aren't.
///
/// # Errors
///
/// [`Fail`] if something that the test needs isn't made.
pub fn refuse_sizes_and_seats<R: Abort + AllocGlobal>(
    rt: &R,
    accepted: &Accepted<'_>,
) -> Result<(), Fail> {
    for (size, seats, code) in &[
        (0, 1, 43),
        (1, 1, 0),
        (1_000_000, 1, 0),
        (1_000_001, 1, 43),
        (usize::MAX, 1, 43),
        (1, 0, 46),
        (1, 64, 0),
        (1, 65, 46),
        (0, 0, 43),
        (0, 65, 43),
    ] {
        has_code(rt, accepted, *size, *seats, *code)?;
    }
    Ok(())
}

#[test]
fn sizes_and_seats(rt: HostRuntime) -> Result<(), Fail> {
    carry_out(&rt, &TWO_CORES, &Plan::Limits)
}
