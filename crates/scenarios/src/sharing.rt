//! Work that is dealt to several workers: a plain map, refused memory, workers that are busy at the
//! same time, and the gate that each passes first.
ghost use Rattle.std.specs.Prelude.{◌*◌};

use crate::gate::Meeting;
use base::Refusal;
use deal::{Gate, Open, Work, shares};
use std::sync::atomic::{AtomicU64, Ordering};
use std::test::Fail;

// Work that doubles an item.
struct Twice;

impl Work<u32> for Twice {
    type Out = u64;

    ghost answer = { λ work item. 2 * item };

    fn of(&self, item: &u32) -> Result<u64, Refusal> {
        Ok(2 * u64::from(*item))
    }
}

// Work for which memory is refused at one item.
#[derive(Drop)]
struct RefusedAt(u32);

impl Work<u32> for RefusedAt {
    type Out = u64;

    ghost answer = { λ work item. 2 * item };

    fn of(&self, item: &u32) -> Result<u64, Refusal> {
        if *item == self.0 {
            return Err(Refusal::OUT_OF_MEMORY);
        }
        Ok(2 * u64::from(*item))
    }
}

// Work that holds each item until the other one is begun too.
impl Work<u32> for Meeting {
    type Out = u64;

    ghost answer = { λ work item. 2 * item };

    fn of(&self, item: &u32) -> Result<u64, Refusal> {
        self.wait();
        Ok(2 * u64::from(*item))
    }
}

// A gate, and work that notes whether nobody has arrived there yet.
#[derive(Drop)]
struct Passed {
    arrived: AtomicU64,
    early: AtomicU64,
}

impl Gate for Passed {
    fn arrive(&self, _worker: usize) {
        self.arrived.fetch_add(1, Ordering::SeqCst);
    }
}

impl Work<u32> for Passed {
    type Out = u64;

    ghost answer = { λ work item. 2 * item };

    fn of(&self, item: &u32) -> Result<u64, Refusal> {
        if self.arrived.load(Ordering::SeqCst) == 0 {
            self.early.fetch_add(1, Ordering::SeqCst);
        }
        Ok(2 * u64::from(*item))
    }
}

#[test]
fn shares_are_the_plain_map(rt: HostRuntime) -> Result<(), Fail> {
    for count in [0, 1, 2, 3, 7, 15, 16, 17, 40] {
        let mut items = Vec::new(rt.alloc());
        let mut expected = Vec::new(rt.alloc());
        for number in 0..count {
            items.push(number)?;
            expected.push(2 * u64::from(number))?;
        }
        for workers in 1..=16 {
            let outs = shares(&rt, rt.alloc(), &items, workers, &Open, &Twice)?;
            assert!(rt; outs == expected, "{count} items, {workers} workers");
        }
    }
    Ok(())
}

#[test]
fn refused_memory_is_told(rt: HostRuntime) {
    let items = [0, 1, 2, 3, 4];
    for workers in [1, 2, 5, 16] {
        for at in items {
            let outs = shares(&rt, rt.alloc(), &items, workers, &Open, &RefusedAt(at));
            assert!(rt;
                outs.err()
                    == Some(Refusal {
                        code: 40,
                        detail: 0
                    })
            );
        }
    }
}

#[test]
fn gate_work(rt: HostRuntime) {
    let work = Meeting::new();
    let outs = shares(&rt, rt.alloc(), &[3, 4], 2, &Open, &work);
    assert!(rt; outs.is_ok());
    work.took_place(&rt);
}

#[test]
fn workers_pass_the_gate(rt: HostRuntime) {
    let gate = Meeting::new();
    let outs = shares(&rt, rt.alloc(), &[3, 4, 5], 3, &gate, &Twice);
    assert!(rt; outs.is_ok());
    gate.took_place(&rt);
}

#[test]
fn nothing_is_worked_before_the_gate(rt: HostRuntime) {
    let passed = Passed {
        arrived: AtomicU64::new(0),
        early: AtomicU64::new(0),
    };
    let outs = shares(&rt, rt.alloc(), &[3, 4], 1, &passed, &passed);
    assert!(rt; outs.is_ok());
    assert!(rt; passed.arrived.load(Ordering::SeqCst) == 1);
    assert!(rt; passed.early.load(Ordering::SeqCst) == 0);
}
