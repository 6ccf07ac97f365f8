//! The placing of new objects in memory, one after another.
ghost use Rattle.std.specs.Prelude.{◌≡◌, ◌≤◌, Ok, length};
ghost use Rattle.base.specs.declared.limits.TheConstants.{ADDRESS_END, MAX_MADE};
ghost use Rattle.{machine.specs.{Memory.{all_taken, new_size}, Step.Retype.sized}, untyped.specs.Batch.new_objects};

use crate::making::new_object;
use crate::room::new_size;
use machine::{MemoryKind, Object, Untyped};

/// Writes new objects of a kind over the given ones, one after another in the memory.
///
/// Returns the watermark after them.
pub fn place(kind: MemoryKind, bits: u64, memory: Untyped, objects: &mut [Object]) -> u64
    requires sized { sized kind bits ≡ Ok tt }
    requires mark { memory.watermark ≤ ADDRESS_END }
    requires few { length objects.old ≤ MAX_MADE }
    ensures objects { objects.new ≡ new_objects (length objects.old) kind bits memory }
    ensures mark { result ≡ (all_taken (length objects.old) (new_size kind bits) memory).watermark }
{
    let size = new_size(kind, bits);
    let mut mark = memory.watermark;
    for object in objects.iter_mut() {
        let address = mark.next_multiple_of(size);
        *object = new_object(kind, bits, address);
        mark = address + size;
    }
    mark
}
