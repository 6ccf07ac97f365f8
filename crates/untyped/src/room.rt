//! The room that objects take in untyped memory.
ghost use Rattle.std.specs.Prelude.{◌<◌, ◌^◌, ◌≡◌, ◌≤◌, Ok};
ghost use Rattle.base.specs.declared.limits.TheConstants.{ADDRESS_END, MAX_MADE};
ghost use Rattle.{machine.specs.{Memory.{begun, new_size}, Objects.end_of, Step.Retype.{roomy, sized}}, untyped.specs.Shown.source_shown};
ghost use Rattle.machine.specs.declared.object.Object.TheVariants as o;

use crate::finding::Source;
use base::Cause;
use machine::{MemoryKind, Untyped};
use objects::State;

/// Returns the number of bytes that an object of the kind takes.
pub fn new_size(kind: MemoryKind, bits: u64) -> u64
    requires { sized kind bits ≡ Ok tt }
    ensures value { result ≡ new_size kind bits }
    ensures least { 0 < result }
    ensures most { result ≤ 2 ^ 47 }
{
    match kind {
        MemoryKind::Untyped => 1 << bits,
        MemoryKind::CNode => 1 << (bits + 5),
        MemoryKind::Tcb => 1 << 10,
        MemoryKind::Endpoint => 1 << 4,
        MemoryKind::Notification => 1 << 5,
        MemoryKind::Reply => 1 << 5,
        MemoryKind::Context => 1 << 8,
        MemoryKind::Frame => 1 << 12,
    }
}

/// Returns the memory with the watermark where the making begins.
///
/// The making begins at the memory's base if no existing object was made of it.
#[tactic(auto, unfolding(machine::specs::Memory::has_child))]
pub fn begun(state: &State, source: Source) -> Source
    ensures { source_shown result ≡ begun state.now (source_shown source) }
{
    if let Some(_) = state.first_child(source.slot) {
        return source;
    }
    let memory = Untyped {
        watermark: source.memory.base,
        ..source.memory
    };
    Source { memory, ..source }
}

/// Refuses if the memory has no room for `count` objects of a size.
///
/// # Errors
///
/// [`Cause::NotEnoughMemory`] (10) where they would end past the memory.
pub fn roomy(memory: Untyped, size: u64, count: u64) -> Result<(), Cause>
    requires bits { memory.bits ≤ 47 }
    requires ends { end_of (o.Untyped memory) ≤ ADDRESS_END }
    requires mark { memory.watermark ≤ ADDRESS_END }
    requires least { 0 < size }
    requires most { size ≤ 2 ^ 47 }
    requires few { count ≤ MAX_MADE }
    ensures { result ≡ roomy memory size count }
{
    let mut mark = memory.watermark;
    for _ in 0..count {
        mark = mark.next_multiple_of(size) + size;
    }
    if mark <= memory.base + (1 << memory.bits) {
        Ok(())
    } else {
        Err(Cause::NotEnoughMemory)
    }
}
