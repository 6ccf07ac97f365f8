//! Names of kernels, by which types agree on the kernel that they are of.

use std::marker::Brand;

/// A name for a kernel: it says which kernel a [`Kernel`](crate::Kernel) is.
///
/// Nothing is known of what lies under a lock but what its type says, so the kernel's type names
/// it. Each call of a program's generic function picks it.
pub trait Naming {
    ghost use Rattle.cores.specs.Seats.{Ticket};

    ghost ticket: { Ticket };
}

impl Naming for Brand {
    ghost use Rattle.cores.specs.Seats.{no_ticket};

    ghost ticket = { no_ticket };
}
