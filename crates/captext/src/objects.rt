//! The lines of a capability table for labels and objects.
ghost use Rattle.std.specs.Prelude.{◌<◌, ◌≡◌, IfOk, None, OnErr, OnOk, false, if◌then◌else◌, is_some, length, true};
ghost use Rattle.words.specs.{Name.is_name, Parts.read_as, Reading.{Gives, GivesOrStops}};
ghost use Rattle.table.specs.{Building.repeats_control, Names.object_named, Rules.IsBlank};
ghost use Rattle.captext.specs.Tables as text;

use crate::shapes::names;
use base::{CoreNo, Label, MAX_PERIOD};
use machine::{
    CNode, Context, Control, Endpoint, Frame, Inbox, Initial, Notification, Object, ObjectKind,
    Radix, Reply, ReplyState, RunState, Share, Tcb, Untyped,
};
use table::{Draft, is_addressable, is_aligned};
use words::{LineError, Words, Wrong, decimal_of};

/// Reads `NAME`, after the word `label`.
///
/// # Errors
///
/// [`LineError::Text`] with the fault of the line, or [`LineError::Memory`] where memory is
/// refused. Then the draft hasn't changed.
#[tactic(auto, unfolding(crate::specs::Tables::label_line, crate::specs::Tables::labelled, words::specs::Reading::bind))]
pub fn label_line(draft: &mut Draft, words: &mut Words<'_>) -> Result<(), LineError>
    ensures exact { GivesOrStops (λ _. draft.new) result (text.label_line draft.old words.old) }
    ensures err { OnErr result (draft.new ≡ draft.old) }
{
    let name = words.name()?;
    words.end()?;
    if !takes_labels(draft) {
        return Err(LineError::Text(Wrong::Syntax));
    }
    if draft.label_named(name).is_some() {
        return Err(LineError::Text(Wrong::Double));
    }
    if draft.label_count() >= draft.version().most_labels() {
        return Err(LineError::Text(Wrong::Limit));
    }
    draft.add_label(name)?;
    Ok(())
}

/// Whether a label may come now.
fn takes_labels(draft: &Draft) -> bool
    ensures { result ≡ text.takes_labels draft.now }
{
    draft.objects().is_empty() && takes_objects(draft)
}

/// Whether an object may come now.
fn takes_objects(draft: &Draft) -> bool
    ensures { result ≡ text.takes_objects draft.now }
{
    draft.caps().is_empty() && takes_caps(draft)
}

/// Returns whether a capability may come now.
pub fn takes_caps(draft: &Draft) -> bool
    ensures { result ≡ text.takes_caps draft.now }
{
    draft.pairs().is_empty() && takes_pairs(draft)
}

/// Returns whether a pair of the derivation tree may come now.
pub fn takes_pairs(draft: &Draft) -> bool
    ensures { result ≡ text.takes_pairs draft.now }
{
    draft.bindings().is_empty()
}

/// The label of that name, where an object may come now and its name is new.
#[tactic(auto, unfolding(crate::specs::Tables::heading, words::specs::Reading::bind))]
fn heading(draft: &Draft, name: &str, label: &str) -> Result<Label, Wrong>
    ensures exact { result ≡ text.heading draft.now name.now label.now }
    ensures within { IfOk result (λ label. label < length draft.now.labels) }
    ensures fresh { OnOk result (is_some (object_named draft.now name.now) ≡ false) }
{
    if !takes_objects(draft) {
        return Err(Wrong::Syntax);
    }
    let label = draft.label_named(label).ok_or(Wrong::UnknownName)?;
    if draft.object_named(name).is_some() {
        return Err(Wrong::Double);
    }
    Ok(label)
}

/// Whether one object more is within the limits, and ends within the addresses that there are.
fn is_within(draft: &Draft, object: &Object) -> bool
    ensures { result ≡ text.is_within draft.now object.now }
{
    draft.has_room(object) && is_addressable(object)
}

/// Adds an object that is within the limits and where it may lie.
#[tactic(auto, unfolding(crate::specs::Tables::declared, words::specs::Reading::bind))]
fn declare(draft: &mut Draft, name: &str, label: Label, object: Object) -> Result<(), LineError>
    requires spelled { is_name name.now ≡ true }
    requires fresh { is_some (object_named draft.old name.now) ≡ false }
    requires label { label < length draft.old.labels }
    requires blank { IsBlank object }
    requires control { repeats_control draft.old object ≡ false }
    ensures exact { GivesOrStops (λ _. draft.new) result (text.declared draft.old name.now label object) }
    ensures err { OnErr result (draft.new ≡ draft.old) }
{
    if !is_within(draft, &object) {
        return Err(LineError::Text(Wrong::Limit));
    }
    if !(is_aligned(&object) && draft.is_free(&object)) {
        return Err(LineError::Text(Wrong::Misplaced));
    }
    draft.add_object(name, Initial { label, object })?;
    Ok(())
}

/// Whether the object is the control of a core that the table has the control of.
fn repeats_control(draft: &Draft, object: &Object) -> bool
    ensures { result ≡ repeats_control draft.now object.now }
{
    match object {
        Object::Control(control) => draft.has_control(control.core),
        _ => false,
    }
}

/// Reads an object's `NAME LABEL` and its kind's own words, after the kind's word.
///
/// # Errors
///
/// [`LineError::Text`] with the fault of the line, or [`LineError::Memory`] where memory is
/// refused. Then the draft hasn't changed.
#[tactic(auto, unfolding(crate::specs::Tables::object_line, words::specs::Reading::bind))]
pub fn object_line(
    draft: &mut Draft,
    kind: ObjectKind,
    words: &mut Words<'_>,
) -> Result<(), LineError>
    ensures exact { GivesOrStops (λ _. draft.new) result (text.object_line kind draft.old words.old) }
    ensures err { OnErr result (draft.new ≡ draft.old) }
{
    let (name, label) = names(words)?;
    let object = match object(kind, words) {
        Ok(object) => object,
        Err(wrong) => return Err(LineError::Text(wrong)),
    };
    words.end()?;
    let label = heading(draft, name, label)?;
    let Some(object) = object else {
        return Err(LineError::Text(Wrong::Limit));
    };
    if repeats_control(draft, &object) {
        return Err(LineError::Text(Wrong::Double));
    }
    declare(draft, name, label, object)
}

/// The object at boot that its kind's own words tell, if it is within the limits of the kind.
#[tactic(auto, unfolding(words::specs::Parts::read_as, words::specs::Reading::bind))]
fn object(kind: ObjectKind, words: &mut Words<'_>) -> Result<Option<Object>, Wrong>
    ensures { Gives (λ object. (object, words.new)) result (read_as text.limited (text.content_at kind) words.old) }
{
    match kind {
        ObjectKind::Untyped => untyped(words),
        ObjectKind::CNode => cnode(words),
        ObjectKind::Tcb => thread(words),
        ObjectKind::Endpoint => {
            let address = words.hex()?;
            Ok(Some(Object::Endpoint(Endpoint { address })))
        }
        ObjectKind::Notification => {
            let address = words.hex()?;
            let pending = None;
            Ok(Some(Object::Notification(Notification { address, pending })))
        }
        ObjectKind::Reply => {
            let address = words.hex()?;
            let state = ReplyState::Free;
            Ok(Some(Object::Reply(Reply { address, state })))
        }
        ObjectKind::Context => context(words),
        ObjectKind::Frame => {
            let address = words.hex()?;
            Ok(Some(Object::Frame(Frame { address })))
        }
        ObjectKind::Control => control(words),
    }
}

/// `HEX DEC`.
#[tactic(auto, unfolding(words::specs::Parts::in_turn, words::specs::Parts::read_as, words::specs::Reading::bind))]
fn untyped(words: &mut Words<'_>) -> Result<Option<Object>, Wrong>
    ensures { Gives (λ object. (object, words.new)) result (read_as text.limited (text.content_at ObjectKind.Untyped) words.old) }
{
    let base = words.hex()?;
    let bits = words.number()?;
    if 4 <= bits && bits <= 47 {
        Ok(Some(Object::Untyped(Untyped {
            base,
            bits: bits as u8,
            watermark: base,
        })))
    } else {
        Ok(None)
    }
}

/// `HEX DEC`.
#[tactic(auto, unfolding(words::specs::Parts::in_turn, words::specs::Parts::read_as, words::specs::Reading::bind))]
fn cnode(words: &mut Words<'_>) -> Result<Option<Object>, Wrong>
    ensures { Gives (λ object. (object, words.new)) result (read_as text.limited (text.content_at ObjectKind.CNode) words.old) }
{
    let address = words.hex()?;
    let radix = words.number()?;
    match Radix::new(radix) {
        Some(radix) => Ok(Some(Object::CNode(CNode { address, radix }))),
        None => Ok(None),
    }
}

/// The run state that a thread starts with.
#[tactic(auto, unfolding(crate::specs::Tables::start_of))]
fn start_of(word: &[u8]) -> Option<RunState>
    ensures { result ≡ text.start_of word.now }
{
    if word == b"ready".as_slice() {
        Some(RunState::Ready)
    } else if word == b"inactive".as_slice() {
        Some(RunState::Inactive)
    } else {
        None
    }
}

/// `HEX ready` or `HEX inactive`.
#[tactic(auto, unfolding(crate::specs::Tables::start_at, words::specs::Parts::in_turn, words::specs::Parts::read_as, words::specs::Reading::or_syntax, words::specs::Reading::bind))]
fn thread(words: &mut Words<'_>) -> Result<Option<Object>, Wrong>
    ensures { Gives (λ object. (object, words.new)) result (read_as text.limited (text.content_at ObjectKind.Tcb) words.old) }
{
    let address = words.hex()?;
    let word = words.word()?;
    let state = start_of(word).ok_or(Wrong::Syntax)?;
    Ok(Some(Object::Tcb(Tcb {
        address,
        state,
        inbox: Inbox::Empty,
        context: None,
    })))
}

/// A share of a core, if it is within the limits.
fn limited_share(core: u64, budget: u64, period: u64) -> Option<Share>
    ensures { result ≡ if text.is_share core budget period then text.share_of (core, (budget, period)) else None }
{
    let core = CoreNo::new(core)?;
    if 1 <= budget && budget <= period && period <= MAX_PERIOD {
        Some(Share {
            core,
            budget,
            period,
        })
    } else {
        None
    }
}

/// `HEX -` or `HEX CORE BUDGET PERIOD`.
#[tactic(auto, unfolding(crate::specs::Tables::share_at, words::specs::Number::number_at, words::specs::Parts::in_turn, words::specs::Parts::read_as, words::specs::Reading::or_syntax, words::specs::Reading::word_at, words::specs::Reading::bind))]
fn context(words: &mut Words<'_>) -> Result<Option<Object>, Wrong>
    ensures { Gives (λ object. (object, words.new)) result (read_as text.limited (text.content_at ObjectKind.Context) words.old) }
{
    let address = words.hex()?;
    let first = words.word()?;
    let thread = None;
    if first == b"-".as_slice() {
        let share = None;
        return Ok(Some(Object::Context(Context {
            address,
            share,
            thread,
        })));
    }
    let core = decimal_of(first).ok_or(Wrong::Syntax)?;
    let budget = words.number()?;
    let period = words.number()?;
    match limited_share(core, budget, period) {
        Some(share) => Ok(Some(Object::Context(Context {
            address,
            share: Some(share),
            thread,
        }))),
        None => Ok(None),
    }
}

/// `DEC`, the core.
#[tactic(auto, unfolding(words::specs::Parts::read_as, words::specs::Reading::bind))]
fn control(words: &mut Words<'_>) -> Result<Option<Object>, Wrong>
    ensures { Gives (λ object. (object, words.new)) result (read_as text.limited (text.content_at ObjectKind.Control) words.old) }
{
    let core = words.number()?;
    match CoreNo::new(core) {
        Some(core) => Ok(Some(Object::Control(Control { core }))),
        None => Ok(None),
    }
}
