//! Atoms, which are single facts of a state: a search finds by them what is new.
ghost use Rattle.std.specs.Prelude.{◌≡◌, IfErr};
ghost use Rattle.base.specs.Refusals.{plain};

use crate::listing::Listing;
use base::{ObjId, Refusal, SlotRef};
use bitflags::Flags;
use labels::label_of;
use machine::{Cap, Detail, Inbox, Object, ObjectKind, ReplyState, RunState, Tcb};
use objects::State;
use runs::reach;
use std::alloc::{AllocError, Global};
use std::collections::{BTreeMap, BTreeSet};
use table::Table;

/// The number of pairs of atoms after which no more are noted.
const MOST_TWOS: usize = 1_000_000;

/// The kind of an atom.
#[derive(Clone, Copy, PartialEq, Eq, PartialOrd, Ord)]
enum Aspect {
    /// A CNode holds a capability.
    Holds,
    /// A thread has a root.
    Root,
    /// All slots but one are filled.
    Gap,
    /// A slot's capability was derived from another's.
    Pair,
    /// An object is gone.
    Gone,
    /// A thread can't run.
    Inactive,
    Ready,
    Sending,
    /// A thread waits to send a message with a capability.
    Offering,
    Receiving,
    /// A thread waits for a message, and has a slot for a capability that comes with it.
    Accepting,
    Waiting,
    Called,
    /// A thread was given a message, a word, or the news that its wait was aborted.
    Message,
    Word,
    Aborted,
    /// A thread runs on a context, or on none.
    Bound,
    /// A notification has a word, or none.
    Pending,
    Silent,
    /// A reply waits for nothing, for a thread's message, or holds a thread.
    Free,
    Named,
    Answering,
    /// Objects were made of untyped memory, or there are none any more.
    Used,
    Unused,
    /// A context is configured.
    Configured,
}

/// An object as atoms name it.
#[derive(Clone, Copy, PartialEq, Eq, PartialOrd, Ord)]
enum Name {
    /// No object.
    Nothing,
    /// An object of the table.
    Declared(u64),
    /// An object that was made. Objects of the same kind and label aren't distinguished.
    Made(Option<ObjectKind>, Option<u16>),
}

/// A single fact of a state, on one or two objects and with rights.
#[derive(Clone, Copy, PartialEq, Eq, PartialOrd, Ord)]
struct Atom {
    aspect: Aspect,
    of: Name,
    to: Name,
    /// The bits of a capability's rights, or the index of an empty slot.
    number: u64,
}

/// The atoms that a state must have to be new.
#[derive(Clone, Copy)]
pub enum News {
    /// An atom that no earlier state had.
    Atom,
    /// Two atoms that no earlier state had together.
    Two,
}

/// The atoms that were seen so far.
#[derive(Drop)]
pub struct Known<'a> {
    table: &'a Table,
    news: News,
    /// The number of objects of the boot state.
    count: u64,
    /// The atoms, each with its number: those of the boot state come first.
    atoms: BTreeMap<Atom, usize>,
    /// The number of atoms of the boot state.
    first: usize,
    /// The pairs of atoms of one state, by their numbers: the smaller number comes first.
    twos: BTreeSet<(usize, usize)>,
}

impl<'a> Known<'a> {
    /// Returns what is known before the boot state is noted: nothing.
    pub fn new(alloc: Global, table: &'a Table, news: News) -> Known<'a> {
        Known {
            table,
            news,
            count: 0,
            atoms: BTreeMap::new(alloc),
            first: 0,
            twos: BTreeSet::new(alloc),
        }
    }

    /// Notes the boot state, if the table has one. It must be the first state that is noted.
    ///
    /// # Errors
    ///
    /// 40 where memory is refused.
    pub fn note_boot(&mut self, alloc: Global) -> Result<(), Refusal>
        ensures { IfErr result (λ refusal. refusal ≡ plain 40) }
    {
        match reach(alloc, self.table, &[]) {
            Ok(Some(boot)) => self.note_first(alloc, &boot),
            Ok(None) => Ok(()),
            Err(refusal) => Err(refusal),
        }
    }

    // Notes the first state.
    fn note_first(&mut self, alloc: Global, boot: &State) -> Result<(), Refusal>
        ensures { IfErr result (λ refusal. refusal ≡ plain 40) }
    {
        self.count = boot.next_id();
        let mut found = Listing::new(alloc);
        for number in 0..self.count {
            self.list(boot, ObjId(number), &mut found);
        }
        for atom in &found.finish()? {
            let _ = self.number(atom)?;
        }
        self.first = self.atoms.len();
        Ok(())
    }

    /// Notes the atoms of the objects that a call changed, and returns whether the state is new.
    ///
    /// `earlier` are the other objects in which the state may differ from the boot state.
    pub fn note(
        &mut self,
        alloc: Global,
        state: &State,
        changes: &[ObjId],
        earlier: &[ObjId],
    ) -> Result<bool, AllocError> {
        let before = self.atoms.len();
        let numbers = self.numbers(alloc, state, changes)?;
        let is_new = self.atoms.len() != before;
        if matches!(self.news, News::Atom) || self.twos.len() >= MOST_TWOS {
            return Ok(is_new);
        }
        let others = self.numbers(alloc, state, earlier)?;
        let known = self.twos.len();
        self.note_twos(&numbers, &numbers)?;
        self.note_twos(&numbers, &others)?;
        Ok(is_new || self.twos.len() != known)
    }

    // The number of an atom, which gets one if it is new.
    fn number(&mut self, atom: &Atom) -> Result<usize, AllocError> {
        let number = self.atoms.len();
        match self.atoms.insert(*atom, number)? {
            Some(before) => {
                self.atoms.insert(*atom, before)?;
                Ok(before)
            }
            None => Ok(number),
        }
    }

    // The numbers of the atoms of some objects that the boot state doesn't have.
    fn numbers(
        &mut self,
        alloc: Global,
        state: &State,
        ids: &[ObjId],
    ) -> Result<Vec<usize>, AllocError> {
        let mut found = Listing::new(alloc);
        for id in ids {
            self.list(state, *id, &mut found);
        }
        let mut numbers = Listing::new(alloc);
        for atom in &found.finish()? {
            let number = self.number(atom)?;
            if number >= self.first {
                numbers.push(number);
            }
        }
        numbers.finish()
    }

    // Notes each pair of an atom of some numbers and one of others.
    fn note_twos(&mut self, numbers: &[usize], others: &[usize]) -> Result<(), AllocError> {
        for one in numbers {
            for other in others {
                let pair = ((*one).min(*other), (*one).max(*other));
                self.twos.insert(pair)?;
            }
        }
        Ok(())
    }

    // Lists the atoms of an object.
    fn list(&self, state: &State, id: ObjId, found: &mut Listing<Atom>) {
        let of = self.name(state, id);
        let Some(object) = state.object(id) else {
            push(found, Aspect::Gone, &of, &Name::Nothing, 0);
            return;
        };
        let (aspect, at) = content_of(object);
        let place = self.name_if(state, at);
        push(found, aspect, &of, &place, 0);
        if let Object::Tcb(thread) = object {
            self.list_thread(state, thread, &of, found);
        }
        for index in 0..object.slot_count() {
            let slot = SlotRef { holder: id, index };
            self.list_slot(state, slot, object, &of, found);
        }
        if let Some(index) = only_gap(state, id, object) {
            push(found, Aspect::Gap, &of, &Name::Nothing, index);
        }
    }

    // Lists the atoms that only threads have.
    fn list_thread(&self, state: &State, thread: &Tcb, of: &Name, found: &mut Listing<Atom>) {
        let context = self.name_if(state, thread.context);
        push(found, Aspect::Bound, of, &context, 0);
        if let Some(aspect) = given(&thread.inbox) {
            push(found, aspect, of, &Name::Nothing, 0);
        }
    }

    // Lists the atoms of a slot.
    fn list_slot(
        &self,
        state: &State,
        slot: SlotRef,
        object: &Object,
        of: &Name,
        found: &mut Listing<Atom>,
    ) {
        let Some(cap) = state.held(slot) else {
            return;
        };
        let aspect = match object {
            Object::Tcb(_) => Aspect::Root,
            _ => Aspect::Holds,
        };
        let held = self.name(state, cap.object);
        push(found, aspect, of, &held, rights(cap));
        let Some(parent) = state.parent(slot) else {
            return;
        };
        let from = self.name(state, parent.holder);
        push(found, Aspect::Pair, of, &from, 0);
    }

    // The name of an object in atoms.
    fn name(&self, state: &State, id: ObjId) -> Name {
        if id.0 < self.count {
            return Name::Declared(id.0);
        }
        let kind = match state.object(id) {
            Some(object) => Some(object.kind()),
            None => None,
        };
        let label = match label_of(self.table, state, id) {
            Some(label) => Some(label.number()),
            None => None,
        };
        Name::Made(kind, label)
    }

    // The name of an object, if there is one.
    fn name_if(&self, state: &State, id: Option<ObjId>) -> Name {
        match id {
            Some(id) => self.name(state, id),
            None => Name::Nothing,
        }
    }
}

// Adds an atom to a list.
fn push(found: &mut Listing<Atom>, aspect: Aspect, of: &Name, to: &Name, number: u64) {
    found.push(Atom {
        aspect,
        of: *of,
        to: *to,
        number,
    });
}

// The only empty slot of an object, if all others are filled.
fn only_gap(state: &State, id: ObjId, object: &Object) -> Option<u64> {
    let mut gap = None;
    for index in 0..object.slot_count() {
        let slot = SlotRef { holder: id, index };
        if state.held(slot).is_none() {
            if gap.is_some() {
                return None;
            }
            gap = Some(index);
        }
    }
    gap
}

// The fact that an object's content gives, and the other object in it.
fn content_of(object: &Object) -> (Aspect, Option<ObjId>) {
    match object {
        Object::Tcb(thread) => waits(&thread.state),
        Object::Notification(bell) if bell.pending.is_some() => (Aspect::Pending, None),
        Object::Reply(reply) => match reply.state {
            ReplyState::Free => (Aspect::Free, None),
            ReplyState::Waiting(thread) => (Aspect::Named, Some(thread)),
            ReplyState::Called(thread) => (Aspect::Answering, Some(thread)),
        },
        Object::Untyped(memory) if memory.watermark > memory.base => (Aspect::Used, None),
        Object::Untyped(_) => (Aspect::Unused, None),
        Object::Context(context) if context.share.is_some() => (Aspect::Configured, None),
        _ => (Aspect::Silent, None),
    }
}

// The fact that a thread's run state gives, and the object that it waits at or through.
fn waits(state: &RunState) -> (Aspect, Option<ObjId>) {
    match state {
        RunState::Inactive => (Aspect::Inactive, None),
        RunState::Ready => (Aspect::Ready, None),
        RunState::Sending(sending) => match sending.capability {
            Some(_) => (Aspect::Offering, Some(sending.endpoint)),
            None => (Aspect::Sending, Some(sending.endpoint)),
        },
        RunState::Receiving(receiving) => match receiving.slot {
            Some(_) => (Aspect::Accepting, Some(receiving.endpoint)),
            None => (Aspect::Receiving, Some(receiving.endpoint)),
        },
        RunState::Waiting(notification) => (Aspect::Waiting, Some(*notification)),
        RunState::Called(calling) => (Aspect::Called, Some(calling.reply)),
    }
}

// The fact that a thread's inbox gives.
fn given(inbox: &Inbox) -> Option<Aspect> {
    match inbox {
        Inbox::Empty => None,
        Inbox::Message(_) => Some(Aspect::Message),
        Inbox::Word(_) => Some(Aspect::Word),
        Inbox::Aborted => Some(Aspect::Aborted),
    }
}

// The bits of a capability's rights.
fn rights(cap: &Cap) -> u64 {
    match cap.detail {
        Detail::Endpoint(end) | Detail::Notification(end) => u64::from(end.rights.bits()),
        Detail::Frame(rights) => u64::from(rights.bits()),
        _ => 0,
    }
}
