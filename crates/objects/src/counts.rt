//! Counts of objects, slots and threads.
ghost use Rattle.std.specs.{List.fold, Prelude.{◌*◌, ◌+◌, ◌<◌, ◌^◌, ◌≡◌, ◌≤◌, length}};
ghost use Rattle.base.specs.declared.limits.TheConstants.{MAX_RADIX};
ghost use Rattle.{machine.specs.Objects.{slot_count, thread_count}, objects.specs.Counts.{one_less, one_more}};

use machine::Object;

/// The numbers of objects, of their slots, and of threads among them.
#[derive(Clone, Copy)]
pub struct Counts {
    pub objects: u64,
    pub slots: u64,
    pub threads: u64,
}

impl Counts {
    /// The counts of no objects.
    pub const NONE: Counts = Counts {
        objects: 0,
        slots: 0,
        threads: 0,
    };

    /// Returns the counts with more objects.
    pub fn with_all(self, objects: &[Object]) -> Counts
        requires objects { self.objects + length objects.now < 2 ^ 64 }
        requires slots { self.slots + length objects.now * 2 ^ MAX_RADIX < 2 ^ 64 }
        requires threads { self.threads + length objects.now < 2 ^ 64 }
        ensures { result ≡ fold one_more self objects.now }
    {
        let mut counts = self;
        for object in objects {
            counts.objects += 1;
            counts.slots += object.slot_count();
            counts.threads += object.thread_count();
        }
        counts
    }

    /// Returns the counts without one of the objects that they count.
    pub fn without(self, object: &Object) -> Counts
        requires objects { 1 ≤ self.objects }
        requires slots { slot_count object.now ≤ self.slots }
        requires threads { thread_count object.now ≤ self.threads }
        ensures { result ≡ one_less self object.now }
    {
        Counts {
            objects: self.objects - 1,
            slots: self.slots - object.slot_count(),
            threads: self.threads - object.thread_count(),
        }
    }
}
