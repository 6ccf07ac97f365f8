//! The links of queues and of the derivation tree.
use base::{ObjId, SlotRef};

/// The ends of the queue of the threads that wait at an object; none if nobody waits.
#[derive(Clone, Copy)]
pub struct Ends {
    pub first: Option<ObjId>,
    pub last: Option<ObjId>,
}

impl Ends {
    /// The ends of an empty queue.
    pub const NOBODY: Ends = Ends {
        first: None,
        last: None,
    };
}

/// The place of a thread in a queue: the object at which it waits, and the threads before and after it.
///
/// All three are `None` if the thread waits nowhere.
#[derive(Clone, Copy)]
pub struct Standing {
    pub at: Option<ObjId>,
    pub previous: Option<ObjId>,
    pub next: Option<ObjId>,
}

impl Standing {
    /// The place of a thread that waits nowhere.
    pub const NOWHERE: Standing = Standing {
        at: None,
        previous: None,
        next: None,
    };
}

/// The place of a slot in the derivation tree.
///
/// It is the slot's parent, the first of its children, and the children of its parent after and
/// before it. All four are `None` if the slot is empty, or has neither parent nor children.
#[derive(Clone, Copy)]
pub struct TreeLinks {
    pub parent: Option<SlotRef>,
    pub first: Option<SlotRef>,
    pub next: Option<SlotRef>,
    pub previous: Option<SlotRef>,
}

impl TreeLinks {
    /// The place of a slot that is in no pair of the derivation tree.
    pub const NONE: TreeLinks = TreeLinks {
        parent: None,
        first: None,
        next: None,
        previous: None,
    };
}
