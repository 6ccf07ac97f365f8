//! The sharing of items among workers.
ghost use Rattle.std.specs.Prelude.{ℕ, ◌%◌, ◌*◌, ◌+◌, ◌/◌, ◌<◌, ◌≡◌, ◌≤◌, IfErr, IfOk, IfSome, length, map, min, slice_get};
ghost use Rattle.{base.specs.Refusals.out_of_memory, deal.specs.Shares.{share_of, start_of}};

use crate::{Gate, Work};
use base::Refusal;
use std::alloc::Global;
use std::thread;
use std::thread::Threads;

/// Returns the results of the work on all items, in their order, by 1 to 16 workers side by side.
///
/// Each worker arrives at the gate, and then works its own share: the shares are contiguous, and
/// their lengths differ by at most one.
///
/// It differs from a pool of threads by hand: where a thread can't be started, its share is worked
/// in turn, so that a gate that waits for another worker may wait in vain.
///
/// # Errors
///
/// 40 where memory is refused.
pub fn shares<R, T, G, W>(
    rt: &R,
    alloc: Global,
    items: &[T],
    workers: usize,
    gate: &G,
    work: &W,
) -> Result<Vec<W::Out>, Refusal>
where
    R: Threads + Sync,
    T: Sync,
    G: Gate + Sync,
    W: Work<T> + Sync,
    W::Out: Send + Drop,
    requires { (1 ≤ workers) × (workers ≤ 16) }
    ensures ok { IfOk result (λ outs. outs.items ≡ map (W.answer work.now) items.now) }
    ensures arrived { IfOk result (λ outs. (worker : ℕ) → worker < workers → G.HasArrived gate.now worker) }
    ensures err { IfErr result (λ refusal. refusal ≡ out_of_memory) }
{
    let share = |worker: usize| -> Result<Vec<W::Out>, Refusal>
        requires { (0 < workers) × (worker < workers) }
        ensures { IfOk result
            (λ outs. outs.items ≡ map (W.answer work.entry.now) (share_of items.entry.now workers worker))
            × IfErr result (λ refusal. refusal ≡ out_of_memory) × G.HasArrived gate.entry.now worker }
    {
        gate.arrive(worker);
        work_share(alloc, items, workers, worker, gate, work)
    };
    let Ok(parts) = thread::map_indices(rt, alloc, workers, &share) else {
        return Err(Refusal::OUT_OF_MEMORY);
    };
    joined(alloc, items, work, parts)
}

// Where the share of a worker begins.
fn start(items: usize, workers: usize, worker: usize) -> usize
    requires { (0 < workers) × (worker ≤ workers) }
    ensures start { result ≡ start_of items workers worker }
    ensures within { result ≤ items }
{
    worker * (items / workers) + worker.min(items % workers)
}

// The results of the share of a worker, who has arrived at the gate.
#[tactic(auto, unfolding(crate::specs::Shares::share_of))]
fn work_share<T, G: Gate, W: Work<T>>(
    alloc: Global,
    items: &[T],
    workers: usize,
    worker: usize,
    _gate: &G,
    work: &W,
) -> Result<Vec<W::Out>, Refusal>
where
    W::Out: Drop,
    requires worker { (0 < workers) × (worker < workers) }
    requires arrived { G.HasArrived _gate.now worker }
    ensures ok { IfOk result (λ outs. outs.items ≡ map (W.answer work.now) (share_of items.now workers worker)) }
    ensures err { IfErr result (λ refusal. refusal ≡ out_of_memory) }
{
    let from = start(items.len(), workers, worker);
    let to = start(items.len(), workers, worker + 1);
    worked(alloc, &items[from..to], work)
}

// The results of the work on these items, by one worker.
fn worked<T, W: Work<T>>(alloc: Global, items: &[T], work: &W) -> Result<Vec<W::Out>, Refusal>
where
    W::Out: Drop,
    ensures ok { IfOk result (λ outs. outs.items ≡ map (W.answer work.now) items.now) }
    ensures err { IfErr result (λ refusal. refusal ≡ out_of_memory) }
{
    let mut outs = Vec::with_capacity(alloc, items.len())?;
    for item in items {
        outs.push(work.of(item)?)?;
    }
    Ok(outs)
}

// The results of the shares, one after another.
#[tactic(auto, using(crate::proofs::Joining::next_share))]
fn joined<T, W: Work<T>>(
    alloc: Global,
    items: &[T],
    work: &W,
    parts: Vec<Result<Vec<W::Out>, Refusal>>,
) -> Result<Vec<W::Out>, Refusal>
where
    W::Out: Drop,
    requires some { 0 < length parts.items }
    requires worked { (worker : ℕ) → IfSome (slice_get parts.items worker) (λ part.
        IfOk part (λ outs. outs.items ≡ map (W.answer work.now) (share_of items.now (length parts.items) worker))
        × IfErr part (λ refusal. refusal ≡ out_of_memory)) }
    ensures ok { IfOk result (λ outs. outs.items ≡ map (W.answer work.now) items.now) }
    ensures err { IfErr result (λ refusal. refusal ≡ out_of_memory) }
{
    let mut whole = Vec::with_capacity(alloc, items.len())?;
    for part in parts {
        whole.append(&mut part?)?;
    }
    Ok(whole)
}
