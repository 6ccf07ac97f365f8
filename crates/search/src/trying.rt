//! The calls that a search tries in a state: one row for each kind of call.
use crate::guided::{has, is_of, joins, names};
use crate::listing::Listing;
use crate::spaces::{Entry, Gap, Place, Space, space_of};
use base::{CoreNo, Edge, Kind, Label, ObjId, Rights, SlotRef};
use bitflags::Flags;
use labels::label_of;
use machine::{
    Call, CapData, Detail, Event, MemoryKind, Object, ObjectKind, ReplyState, RunState, Tcb,
};
use objects::State;
use std::alloc::{AllocError, Global};
use table::Table;

/// The words of a message.
const WORDS: [u64; 4] = [0; 4];

/// The kinds of object that are made, with the smallest size of each.
const MAKINGS: [(MemoryKind, ObjectKind, u64); 8] = [
    (MemoryKind::Endpoint, ObjectKind::Endpoint, 0),
    (MemoryKind::Tcb, ObjectKind::Tcb, 0),
    (MemoryKind::Context, ObjectKind::Context, 0),
    (MemoryKind::CNode, ObjectKind::CNode, 1),
    (MemoryKind::Notification, ObjectKind::Notification, 0),
    (MemoryKind::Reply, ObjectKind::Reply, 0),
    (MemoryKind::Untyped, ObjectKind::Untyped, 4),
    (MemoryKind::Frame, ObjectKind::Frame, 0),
];

/// The threads whose calls are tried.
#[derive(Clone, Copy)]
pub enum Callers {
    All,
    /// Those of a label.
    Of(Label),
    /// Those that aren't of a label.
    NotOf(Label),
}

/// The calls of a thread that are tried.
#[derive(Clone, Copy)]
pub enum Breadth {
    /// Those at objects that the edges of a reason name.
    Named,
    /// Those that often lead further.
    Narrow,
    /// Also those that seldom lead further.
    Wide,
}

/// The choice of the threads whose calls are tried, and of which calls.
#[derive(Clone, Copy)]
pub struct Choice<'a> {
    pub callers: Callers,
    pub breadth: Breadth,
    /// The edges by which a label may do something to another.
    pub reason: &'a [Edge],
}

/// A state in which calls of a thread are tried.
#[derive(Clone, Copy)]
struct Scene<'a> {
    table: &'a Table,
    state: &'a State,
    breadth: Breadth,
    reason: &'a [Edge],
    /// The label of the thread.
    caller: Option<Label>,
}

impl Scene<'_> {
    // Whether calls are tried that need authority of a kind over an object.
    fn allows(&self, kind: Kind, object: ObjId) -> bool {
        match self.breadth {
            Breadth::Named => names(self.reason, self.caller, kind, self.label(object)),
            _ => true,
        }
    }

    // Whether capabilities are sent with messages.
    fn passes_caps(&self) -> bool {
        match self.breadth {
            Breadth::Named => has(self.reason, Kind::Grant),
            _ => true,
        }
    }

    // Whether calls are tried that empty a slot.
    fn empties(&self, place: &Place) -> bool {
        if self.allows(Kind::Control, place.at.holder) {
            return true;
        }
        self.label(place.at.holder) == self.caller
            && joins(self.reason, self.caller, self.label(place.cap.object))
    }

    fn is_wide(&self) -> bool {
        matches!(self.breadth, Breadth::Wide)
    }

    fn label(&self, object: ObjId) -> Option<Label> {
        label_of(self.table, self.state, object)
    }
}

/// Returns the calls to be tried in a state.
pub fn calls_in(
    alloc: Global,
    table: &Table,
    state: &State,
    choice: &Choice<'_>,
) -> Result<Vec<Event>, AllocError> {
    let mut events = Listing::new(alloc);
    for number in 0..state.next_id() {
        let thread = ObjId(number);
        if let Some(core) = core_of(state, thread) {
            let scene = Scene {
                table,
                state,
                breadth: choice.breadth,
                reason: choice.reason,
                caller: label_of(table, state, thread),
            };
            if is_caller(choice, scene.caller) {
                list_events(alloc, &scene, thread, core, &mut events)?;
            }
        }
    }
    events.finish()
}

// Whether calls of threads of a label are tried.
fn is_caller(choice: &Choice<'_>, caller: Option<Label>) -> bool {
    if matches!(choice.breadth, Breadth::Named) && !is_of(choice.reason, caller) {
        return false;
    }
    match choice.callers {
        Callers::All => true,
        Callers::Of(label) => caller == Some(label),
        Callers::NotOf(label) => caller != Some(label),
    }
}

// Lists the events of a thread that runs.
fn list_events(
    alloc: Global,
    scene: &Scene<'_>,
    thread: ObjId,
    core: CoreNo,
    events: &mut Listing<Event>,
) -> Result<(), AllocError> {
    let space = space_of(alloc, scene.state, thread)?;
    let mut calls = Listing::new(alloc);
    list_calls(scene, &space, &mut calls);
    for call in &calls.finish()? {
        events.push(Event {
            core,
            thread,
            call: *call,
        });
    }
    Ok(())
}

// The core on which a thread runs, if it is ready and runs.
fn core_of(state: &State, thread: ObjId) -> Option<CoreNo> {
    let Some(
        Object::Tcb(
            Tcb {
                state: RunState::Ready,
                context: Some(id),
                ..
            },
        ),
    ) = state.object(thread)
    else {
        return None;
    };
    let Some(Object::Context(context)) = state.object(*id) else {
        return None;
    };
    Some(context.share?.core)
}

// Lists the calls of a thread that has this capability space.
fn list_calls(scene: &Scene<'_>, space: &Space, calls: &mut Listing<Call>) {
    for entry in &space.entries {
        list_uses(scene, space, entry, calls);
    }
    list_removals(scene, space, true, calls);
    for gap in &space.gaps {
        list_fillings(scene, gap, &space.places, calls);
    }
    list_removals(scene, space, false, calls);
    calls.push(Call::Fetch);
}

// Lists the calls that empty slots: of CNodes that are full, or of all others.
fn list_removals(scene: &Scene<'_>, space: &Space, full: bool, calls: &mut Listing<Call>) {
    for place in &space.places {
        if has_gap(space, place.at.holder) != full && scene.empties(place) {
            calls.push(Call::Delete { slot: place.slot });
            if scene.state.first_child(place.at).is_some() {
                calls.push(Call::Revoke { slot: place.slot });
            }
        }
    }
}

// Whether a CNode has an empty slot.
fn has_gap(space: &Space, node: ObjId) -> bool {
    for gap in &space.gaps {
        if gap.at.holder == node {
            return true;
        }
    }
    false
}

// Lists the calls that fill a gap, each with a capability of which the CNode has none yet.
fn list_fillings(scene: &Scene<'_>, gap: &Gap, places: &[Place], calls: &mut Listing<Call>) {
    if !scene.allows(Kind::Control, gap.at.holder) {
        return;
    }
    for place in places {
        if scene.is_wide() {
            list_copies(gap, place, calls);
        } else if !holds(scene.state, gap.at.holder, place) {
            list_copy(gap, place, Rights::all(), calls);
        }
    }
}

// Whether a CNode holds a capability like the one in a slot.
fn holds(state: &State, node: ObjId, place: &Place) -> bool {
    let Some(object) = state.object(node) else {
        return false;
    };
    for index in 0..object.slot_count() {
        let slot = SlotRef {
            holder: node,
            index,
        };
        if let Some(cap) = state.held(slot) {
            if cap.object == place.cap.object && cap.detail == place.cap.detail {
                return true;
            }
        }
    }
    false
}

// Lists the calls that use a capability.
fn list_uses(scene: &Scene<'_>, space: &Space, entry: &Entry, calls: &mut Listing<Call>) {
    let address = entry.address;
    let object = entry.cap.object;
    match entry.cap.detail {
        Detail::Notification(end) => list_signals(scene, entry, end.rights, calls),
        Detail::Endpoint(end) => list_messages(scene, space, entry, end.rights, calls),
        Detail::Reply if scene.allows(Kind::Reply, object) => {
            list_answers(scene.state, entry, calls)
        }
        Detail::Frame(rights) if scene.allows(Kind::Write, object) => {
            list_writes(address, rights, calls)
        }
        Detail::Tcb if scene.allows(Kind::Control, object) => {
            list_controls(scene.state, space, entry, calls)
        }
        Detail::Context if scene.allows(Kind::Context, object) => {
            list_bindings(scene.state, space, entry, calls)
        }
        Detail::Control if scene.allows(Kind::SchedControl, object) => {
            list_shares(space, address, calls)
        }
        Detail::Untyped if scene.allows(Kind::Control, object) => {
            list_makings(scene, space, entry, calls)
        }
        _ => {}
    }
}

// Lists the calls at a notification.
fn list_signals(scene: &Scene<'_>, entry: &Entry, rights: Rights, calls: &mut Listing<Call>) {
    let address = entry.address;
    let object = entry.cap.object;
    if rights.contains(Rights::WRITE) && scene.allows(Kind::Notify, object) {
        calls.push(Call::Signal { address });
    }
    if rights.contains(Rights::READ) && scene.allows(Kind::Await, object) {
        calls.push(Call::Poll { address });
        calls.push(Call::Wait { address });
    }
}

// Lists the call that writes a frame.
fn list_writes(address: u64, rights: Rights, calls: &mut Listing<Call>) {
    if rights.contains(Rights::WRITE) {
        calls.push(Call::Write {
            address,
            index: 0,
            word: 1,
        });
    }
}

// Lists the call that answers through a reply.
fn list_answers(state: &State, entry: &Entry, calls: &mut Listing<Call>) {
    let Some(Object::Reply(reply)) = state.object(entry.cap.object) else {
        return;
    };
    if let ReplyState::Called(_) = reply.state {
        calls.push(Call::Reply {
            address: entry.address,
            words: WORDS,
        });
    }
}

// Lists the calls that bind a context, or unbind it.
fn list_bindings(state: &State, space: &Space, entry: &Entry, calls: &mut Listing<Call>) {
    let context = entry.address;
    if is_bound(state, entry.cap.object) {
        calls.push(Call::Unbind { context });
        return;
    }
    for other in &space.entries {
        if let Detail::Tcb = other.cap.detail {
            let thread = other.address;
            calls.push(Call::Bind { context, thread });
        }
    }
}

// Whether a thread runs on a context.
fn is_bound(state: &State, context: ObjId) -> bool {
    match state.object(context) {
        Some(Object::Context(context)) => context.thread.is_some(),
        _ => false,
    }
}

// Lists the calls that configure a context.
fn list_shares(space: &Space, control: u64, calls: &mut Listing<Call>) {
    for other in &space.entries {
        if let Detail::Context = other.cap.detail {
            calls.push(Call::Configure {
                control,
                context: other.address,
                budget: 1,
                period: 1,
            });
        }
    }
}

// Lists the calls at an endpoint.
fn list_messages(
    scene: &Scene<'_>,
    space: &Space,
    entry: &Entry,
    rights: Rights,
    calls: &mut Listing<Call>,
) {
    let address = entry.address;
    let object = entry.cap.object;
    let sends = scene.allows(Kind::Send, object)
        || scene.allows(Kind::Call, object)
        || scene.allows(Kind::Grant, object);
    let passes_caps = scene.passes_caps();
    if rights.contains(Rights::WRITE) && sends {
        list_sends(address, None, calls);
        if passes_caps && takes_caps(scene.state, object) {
            for other in &space.entries {
                list_sends(address, Some(other.address), calls);
            }
        }
    }
    if rights.contains(Rights::READ) && scene.allows(Kind::Receive, object) {
        list_receives(space, address, None, passes_caps, calls);
        for other in &space.entries {
            if let Detail::Reply = other.cap.detail {
                list_receives(space, address, Some(other.address), passes_caps, calls);
            }
        }
    }
}

// Whether a thread waits at an endpoint with a slot for a capability.
fn takes_caps(state: &State, endpoint: ObjId) -> bool {
    let Some(thread) = state.first_waiting(endpoint) else {
        return false;
    };
    match state.object(thread) {
        Some(Object::Tcb(tcb)) => match &tcb.state {
            RunState::Receiving(receiving) => receiving.slot.is_some(),
            _ => false,
        },
        _ => false,
    }
}

// Lists the sends and calls at an address.
fn list_sends(address: u64, capability: Option<u64>, calls: &mut Listing<Call>) {
    calls.push(Call::Send {
        address,
        words: WORDS,
        capability,
    });
    calls.push(Call::Call {
        address,
        words: WORDS,
        capability,
    });
}

// Lists the receives at an address, with a reply or none, and with slots for a capability or none.
fn list_receives(
    space: &Space,
    address: u64,
    reply: Option<u64>,
    slots: bool,
    calls: &mut Listing<Call>,
) {
    calls.push(Call::Receive {
        address,
        reply,
        slot: None,
    });
    if !slots {
        return;
    }
    for gap in &space.gaps {
        calls.push(Call::Receive {
            address,
            reply,
            slot: Some(gap.slot),
        });
    }
}

// Lists the calls that control a thread.
fn list_controls(state: &State, space: &Space, entry: &Entry, calls: &mut Listing<Call>) {
    let thread = entry.address;
    if !is_inactive(state, entry.cap.object) {
        calls.push(Call::Suspend { thread });
    }
    calls.push(Call::Resume { thread });
    let root = root_of(state, entry.cap.object);
    if root.is_some() {
        calls.push(Call::ClearSpace { thread });
    }
    for other in &space.entries {
        if let Detail::CNode(_) = other.cap.detail {
            if root != Some(other.cap.object) {
                let space = other.address;
                calls.push(Call::SetSpace { thread, space });
            }
        }
    }
}

// Whether a thread was stopped, or hasn't been started.
fn is_inactive(state: &State, thread: ObjId) -> bool {
    match state.object(thread) {
        Some(Object::Tcb(tcb)) => matches!(tcb.state, RunState::Inactive),
        _ => false,
    }
}

// The CNode at which a thread's look-ups begin.
fn root_of(state: &State, thread: ObjId) -> Option<ObjId> {
    match state.root(thread) {
        Some(cap) => Some(cap.object),
        None => None,
    }
}

// Lists the calls that make an object of untyped memory.
fn list_makings(scene: &Scene<'_>, space: &Space, entry: &Entry, calls: &mut Listing<Call>) {
    for (kind, made, bits) in &MAKINGS {
        if scene.is_wide() || (leads_further(*made) && !is_made(scene, entry.cap.object, *made)) {
            list_retypes(space, entry.address, *kind, *bits, calls);
        }
    }
}

// Lists the calls that make an object of a kind for each gap.
fn list_retypes(
    space: &Space,
    untyped: u64,
    kind: MemoryKind,
    bits: u64,
    calls: &mut Listing<Call>,
) {
    for gap in &space.gaps {
        calls.push(Call::Retype {
            untyped,
            kind,
            bits,
            to: gap.slot.root,
            offset: gap.at.index,
            count: 1,
        });
    }
}

// Whether a new object of a kind often leads further.
fn leads_further(kind: ObjectKind) -> bool {
    matches!(
        kind,
        ObjectKind::Endpoint | ObjectKind::Tcb | ObjectKind::Context | ObjectKind::CNode
    )
}

// Whether an object of a kind was made already, with the label of a piece of untyped memory.
fn is_made(scene: &Scene<'_>, memory: ObjId, kind: ObjectKind) -> bool {
    let label = scene.label(memory);
    let declared = scene.table.objects().len() as u64;
    for number in declared..scene.state.next_id() {
        let id = ObjId(number);
        if let Some(object) = scene.state.object(id) {
            if object.kind() == kind && scene.label(id) == label {
                return true;
            }
        }
    }
    false
}

// Lists the calls that fill a gap from a slot, with all rights and with fewer.
fn list_copies(gap: &Gap, place: &Place, calls: &mut Listing<Call>) {
    let to = gap.slot;
    let from = place.slot;
    list_copy(gap, place, Rights::all(), calls);
    calls.push(Call::Move { to, from });
    match place.cap.detail {
        Detail::Endpoint(_) | Detail::Notification(_) => {
            list_copy(gap, place, Rights::READ, calls);
            calls.push(Call::Mint {
                to,
                from,
                rights: Rights::all(),
                given: CapData::Badge(1),
            });
        }
        Detail::Frame(_) => list_copy(gap, place, Rights::READ, calls),
        _ => {}
    }
}

// Lists the copy of a slot to a gap.
fn list_copy(gap: &Gap, place: &Place, rights: Rights, calls: &mut Listing<Call>) {
    calls.push(Call::Copy {
        to: gap.slot,
        from: place.slot,
        rights,
    });
}
