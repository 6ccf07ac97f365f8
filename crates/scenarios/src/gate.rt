//! Workers that check at the same time, and numbers of workers that aren't allowed.
use crate::systems::TWO_CORES;
use base::Refusal;
use captext::{read_policy, read_table};
use checker::{CheckError, Gate, Open};
use policy::Policy;
use report::{End, OnAccept, Rules, Silence, Watched};
use std::alloc::Global;
use std::process::Abort;
use std::sync::Wait;
use std::sync::atomic::{AtomicU64, Ordering};
use std::test::Fail;
use std::thread::{self, Threads};
use table::Table;

const TABLE: &str = "\
confine-table 1
label c1
label c2
label srv
label ep
cnode n1 c1 0x1000 1
cnode n2 c2 0x1040 1
cnode ns srv 0x1080 1
tcb t1 c1 0x2000 ready
tcb t2 c2 0x2400 ready
tcb ts srv 0x2800 ready
endpoint e ep 0x3000
reply p srv 0x3020
cap n1.0 e wy 0
cap n2.0 e wy 0
cap ns.0 e r 0
cap ns.1 p
cap t1.root n1 63 0x0
cap t2.root n2 63 0x0
cap ts.root ns 63 0x0
end
";

const POLICY: &str = "\
confine-policy 1
edge c1 reset ep
edge c1 send ep
edge c1 call ep
edge c1 space c1
edge c1 derive c1
edge c2 reset ep
edge c2 send ep
edge c2 call ep
edge c2 space c2
edge c2 derive c2
edge srv reset ep
edge srv receive ep
edge srv reply srv
edge srv space srv
edge srv derive srv
edge srv holds c1
edge srv holds c2
edge srv holds srv
end
";

/// A gate that holds workers 0 and 1 until both have arrived, for a while.
#[derive(Drop)]
pub struct Meeting {
    arrived: AtomicU64,
    gave_up: AtomicU64,
}

impl Meeting {
    /// Waits for the other worker, for a while.
    pub fn wait(&self) {
        self.arrived.fetch_add(1, Ordering::SeqCst);
        for _ in 0..1_000_000u32 {
            if self.arrived.load(Ordering::SeqCst) >= 2 {
                return;
            }
            thread::yield_now();
        }
        self.gave_up.fetch_add(1, Ordering::SeqCst);
    }
}

impl Gate for Meeting {
    fn arrive(&self, worker: usize) {
        if worker < 2 {
            self.wait();
        }
    }
}

impl Meeting {
    /// Returns a gate at which no worker has arrived.
    pub fn new() -> Meeting {
        Meeting {
            arrived: AtomicU64::new(0),
            gave_up: AtomicU64::new(0),
        }
    }

    /// Asserts that both workers arrived, and neither gave up.
    pub fn took_place(&self, rt: &impl Abort) {
        assert!(rt; self.arrived.load(Ordering::SeqCst) == 2);
        assert!(rt; self.gave_up.load(Ordering::SeqCst) == 0);
    }
}

#[test]
fn gate_check(rt: HostRuntime) {
    let meeting = Meeting::new();
    let mut table = Watched::new(TABLE.as_bytes());
    let mut policy = Watched::new(POLICY.as_bytes());
    let mut out = Watched::new(Vec::new(rt.alloc()));
    let end = report::check(
        &rt,
        rt.alloc(),
        Rules::Closed,
        &mut table,
        &mut policy,
        OnAccept::Certificate,
        3,
        &meeting,
        &mut Silence,
        &mut out,
    );
    meeting.took_place(&rt);
    assert!(rt; end == End::Status(0));
}

/// The contexts of the table of two cores, which name the cores.
const CONTEXTS: &str = "context xa a 0x4000 1 10 10\ncontext xb b 0x4100 0 10 10\n";

/// A system of two threads on two cores, and a script in which the first signals and the other polls twice.
fn texts_on(alloc: Global, signals: u64, polls: u64) -> Result<(String, String), Fail> {
    let (before, after) = TWO_CORES.table.split_once(CONTEXTS).ok_or("no contexts")?;
    let table = format!(in alloc;
        "{before}context xa a 0x4000 {signals} 10 10\ncontext xb b 0x4100 {polls} 10 10\n{after}"
    )?;
    let script = format!(in alloc;
        "confine-script 1\n{signals} 2 signal 0\n{polls} 3 poll 0\n{polls} 3 poll 0\nend\n"
    )?;
    Ok((table, script))
}

/// Splits the script of two threads on these cores, at a gate where workers 0 and 1 meet: workers
/// have these numbers on any cores.
fn gate_split_on<R: Abort + AllocGlobal + Threads + Wait + Sync>(
    rt: &R,
    signals: u64,
    polls: u64,
) -> Result<(), Fail> {
    let meeting = Meeting::new();
    let (table, script) = texts_on(rt.alloc(), signals, polls)?;
    let mut table = Watched::new(table.as_bytes());
    let mut policy = Watched::new(TWO_CORES.policy.as_bytes());
    let mut script = Watched::new(script.as_bytes());
    let mut out = Watched::new(Vec::new(rt.alloc()));
    let end = report::run_split(
        rt,
        rt.alloc(),
        &mut table,
        &mut policy,
        &mut script,
        &meeting,
        &mut Silence,
        &mut out,
    );
    meeting.took_place(rt);
    assert!(rt; end == End::Status(0));
    Ok(())
}

#[test]
fn gate_split(rt: HostRuntime) -> Result<(), Fail> {
    gate_split_on(&rt, 1, 0)
}

#[test]
fn gate_split_on_cores_1_and_3(rt: HostRuntime) -> Result<(), Fail> {
    gate_split_on(&rt, 1, 3)
}

#[test]
fn gate_split_on_cores_7_and_2(rt: HostRuntime) -> Result<(), Fail> {
    gate_split_on(&rt, 7, 2)
}

fn are_too_few_or_many<R: Abort + AllocGlobal + Threads + Sync>(
    rt: &R,
    table: &Table,
    policy: &Policy,
    workers: usize,
) {
    match checker::check(rt, rt.alloc(), table, policy, workers, &Open) {
        Ok(verdict) => {
            drop(verdict);
            assert!(rt; false)
        }
        Err(error) => {
            assert!(rt; error == CheckError::WorkerCount);
            assert!(rt; Refusal::from(error).code == 45);
        }
    }
}

fn refuses_for<R: Abort + AllocGlobal + Threads + Sync>(rt: &R, table: &Table) -> Result<(), Fail> {
    match read_policy(rt.alloc(), POLICY.as_bytes(), table) {
        Ok(policy) => {
            for workers in &[0, 17] {
                are_too_few_or_many(rt, table, &policy, *workers);
            }
            drop(policy);
            Ok(())
        }
        Err(_) => Err(Fail::new("a policy")),
    }
}

#[test]
fn workers_are_1_to_16(rt: HostRuntime) -> Result<(), Fail> {
    match read_table(rt.alloc(), TABLE.as_bytes()) {
        Ok(table) => {
            let refused = refuses_for(&rt, &table);
            drop(table);
            refused
        }
        Err(_) => Err(Fail::new("a table")),
    }
}
