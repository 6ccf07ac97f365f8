//! A capability table that is being built up, item by item.
ghost use Rattle.std.specs.{List.list_any, Option.option_copied};
ghost use Rattle.std.specs.Prelude.{◌<◌, ◌≡◌, ◌≤◌, IfErr, IfOk, IfSome, None, OnErr, OnOk, Some, is_some, length, slice_get};
ghost use Rattle.base.specs.declared.limits.TheConstants.{MAX_OBJECTS};
ghost use Rattle.machine.specs.{Authority.label_at, Layout.{bound_thread, empty_layout, initial_of, most_labels, upgraded}, Objects.end_of};
ghost use Rattle.table.specs.Building.{AdmitsBinding, AdmitsCap, AdmitsLabel, AdmitsObject, AdmitsPair, declares_slot, fits};
ghost use Rattle.table.specs.Building.{has_cap_to, has_control, has_room, is_above_bindings, is_above_caps, is_above_pairs};
ghost use Rattle.table.specs.Building.{is_badged, is_bound, is_fitting, is_free, last_binding, last_cap, may_hold, with_binding};
ghost use Rattle.table.specs.{Building.{with_filled, with_initial, with_label, with_pair}, Names.{label_named, object_named}};
ghost use Rattle.table.specs.{Rules.{IsLawful, is_control_of, kind_at}, Tree.{tree_fault, with_originals}};
ghost use Rattle.base.specs.declared.label.TheConstants.Label as LabelLimits;

use crate::bindings::Bindings;
use crate::caps::Caps;
use crate::names::Names;
use crate::objects::Objects;
use crate::table::Table;
use crate::tree::tree_fault;
use base::{ADDRESS_END, CoreNo, Label, MAX_OBJECTS, MAX_SLOTS, MAX_THREADS, ObjId, SlotRef};
use bitflags::Flags;
use machine::{Badged, Binding, Cap, Detail, Filled, Initial, Object, ObjectKind, Pair, Version};
use std::alloc::{AllocError, Global};
use std::marker::Model;

/// A capability table that is being built up.
///
/// Labels and objects are numbered from 0 in the order in which they were added. Items are added in
/// the order of a table's text: labels, objects, capabilities, pairs, bindings. The derivation tree is
/// tested when all are there, by [`Draft::into_table`].
#[derive(Drop)]
pub struct Draft {
    version: Version,
    labels: Names,
    objects: Objects,
    caps: Caps,
    pairs: Vec<Pair>,
    bindings: Bindings,
}

impl Model for Draft {
    ghost use Rattle.machine.specs.Layout.{Layout};
    ghost use Rattle.table.specs.Rules.{IsDraft};

    ghost Value = { Layout };

    ghost view = { λ t. record {
      version = t.version;
      labels = t.labels;
      names = t.objects.names;
      objects = t.objects.objects;
      caps = t.caps;
      pairs = t.pairs.items;
      bindings = t.bindings;
    } };

    ghost invariant = { λ t. IsDraft (record {
      version = t.version;
      labels = t.labels;
      names = t.objects.names;
      objects = t.objects.objects;
      caps = t.caps;
      pairs = t.pairs.items;
      bindings = t.bindings;
    }) };
}

impl Draft {
    /// Returns a table of this version that declares nothing.
    pub fn new(alloc: Global, version: Version) -> Draft
        ensures { result ≡ empty_layout version }
    {
        Draft {
            version,
            labels: Names::new(alloc),
            objects: Objects::new(alloc),
            caps: Caps::new(alloc),
            pairs: Vec::new(alloc),
            bindings: Bindings::new(alloc),
        }
    }

    /// Returns the version.
    pub fn version(&self) -> Version
        ensures { result ≡ self.now.version }
    {
        self.version
    }

    /// Turns the draft into one of version 2, and changes nothing else.
    #[tactic(auto, using(crate::proofs::Upgraded::draft_upgraded))]
    pub(crate) fn upgrade(&mut self)
        ensures { self.new ≡ upgraded self.old }
    {
        self.version = Version::Two;
    }

    /// Returns the number of labels, at most as many as the version has.
    pub fn label_count(&self) -> usize
        ensures count { result ≡ length self.now.labels }
        ensures most { result ≤ most_labels self.now.version }
        ensures limit { result ≤ LabelLimits.COUNT }
    {
        let _most = self.version.most_labels();
        self.labels.len()
    }

    /// Returns the label's name, if there is such a label.
    pub fn label_name(&self, label: Label) -> Option<&str>
        ensures { option_copied result ≡ slice_get self.now.labels label }
    {
        self.labels.get(label.number() as usize)
    }

    /// Returns the label of this name, if there is one.
    #[tactic(auto, unfolding(crate::specs::Names::label_named))]
    pub fn label_named(&self, name: &str) -> Option<Label>
        ensures label { result ≡ label_named self.now name.now }
        ensures within { IfSome result (λ label. label < length self.now.labels) }
    {
        let number = self.labels.number(name)?;
        Label::new(number as u16)
    }

    /// Returns the number of objects, at most [`MAX_OBJECTS`].
    pub fn object_count(&self) -> usize
        ensures count { result ≡ length self.now.objects }
        ensures limit { result ≤ MAX_OBJECTS }
    {
        self.objects.as_slice().len()
    }

    /// Returns the object of this number, if there is one.
    #[tactic(auto, unfolding(machine::specs::Layout::initial_of))]
    pub fn object(&self, id: ObjId) -> Option<Initial>
        ensures { result ≡ initial_of self.now id }
    {
        self.objects.get(id.0)
    }

    /// Returns the kind of the object of this number, if there is one.
    #[tactic(auto, unfolding(crate::specs::Rules::kind_at))]
    pub fn kind(&self, id: ObjId) -> Option<ObjectKind>
        ensures { result ≡ kind_at self.now id }
    {
        match self.object(id) {
            Some(initial) => Some(initial.object.kind()),
            None => None,
        }
    }

    /// Returns the name of the object of this number, if there is one.
    pub fn object_name(&self, id: ObjId) -> Option<&str>
        ensures { option_copied result ≡ slice_get self.now.names id.0 }
    {
        self.objects.name(id.0)
    }

    /// Returns the object of this name, if there is one.
    #[tactic(auto, unfolding(crate::specs::Names::object_named))]
    pub fn object_named(&self, name: &str) -> Option<ObjId>
        ensures { result ≡ object_named self.now name.now }
    {
        self.objects.number(name).map(ObjId)
    }

    /// Returns the objects by their numbers.
    pub fn objects(&self) -> &[Initial]
        ensures { result.now ≡ self.now.objects }
    {
        self.objects.as_slice()
    }

    /// Returns the label of the untyped memory that holds an address, if some does.
    #[tactic(auto, unfolding(machine::specs::Authority::label_at))]
    pub fn label_at(&self, address: u64) -> Option<Label>
        ensures { result ≡ label_at self.now address }
    {
        self.objects.label_at(address)
    }

    /// Returns whether one more object stays within the limits.
    #[tactic(auto, unfolding(crate::specs::Building::has_room))]
    pub fn has_room(&self, object: &Object) -> bool
        ensures { result ≡ has_room self.now object.now }
    {
        self.object_count() < MAX_OBJECTS
            && object.slot_count() <= MAX_SLOTS - self.objects.slots()
            && (self.objects.threads() < MAX_THREADS || !matches!(object, Object::Tcb(_)))
    }

    /// Returns whether an object overlaps no object of the table.
    #[tactic(auto, unfolding(crate::specs::Building::is_free))]
    pub fn is_free(&self, object: &Object) -> bool
        requires { end_of object.now ≤ ADDRESS_END }
        ensures { result ≡ is_free self.now object.now }
    {
        self.objects.is_free(object)
    }

    /// Returns whether the table has the control object of a core.
    #[tactic(auto, unfolding(crate::specs::Building::has_control))]
    pub fn has_control(&self, core: CoreNo) -> bool
        ensures { result ≡ has_control self.now core }
    {
        is_controlled(self.objects.as_slice(), core)
    }

    /// Returns whether the table's objects have a slot.
    #[tactic(auto, unfolding(crate::specs::Building::declares_slot))]
    pub fn declares_slot(&self, slot: SlotRef) -> bool
        ensures { result ≡ declares_slot self.now slot }
    {
        match self.object(slot.holder) {
            Some(holder) => slot.index < holder.object.slot_count(),
            None => false,
        }
    }

    /// Returns the filled slots, rising.
    pub fn caps(&self) -> &[Filled]
        ensures { result.now ≡ self.now.caps }
    {
        self.caps.as_slice()
    }

    /// Returns the last of the filled slots, if there is one.
    pub fn last_cap(&self) -> Option<Filled>
        ensures { result ≡ last_cap self.now }
    {
        self.caps.as_slice().last().copied()
    }

    /// Returns whether a slot is above those that the table fills.
    #[tactic(auto, unfolding(crate::specs::Building::is_above_caps))]
    pub fn is_above_caps(&self, slot: SlotRef) -> bool
        ensures { result ≡ is_above_caps self.now slot }
    {
        match self.caps.as_slice().last() {
            Some(last) => last.slot < slot,
            None => true,
        }
    }

    /// Returns whether a slot of this holder may have such a capability: a thread's root slot takes only a CNode's.
    pub fn may_hold(&self, holder: ObjId, detail: &Detail) -> bool
        ensures { result ≡ may_hold (initial_of self.now holder) detail.now }
    {
        match (self.object(holder), detail) {
            (Some(_), Detail::CNode(_)) => true,
            (Some(holder), _) => !matches!(holder.object, Object::Tcb(_)),
            (None, _) => false,
        }
    }

    /// Returns whether the table has a capability's object, and the capability fits the object.
    ///
    /// The capability fits if it is of the object's kind, with rights and a guard that fit it.
    #[tactic(auto, unfolding(crate::specs::Building::is_fitting))]
    pub fn is_fitting(&self, cap: &Cap) -> bool
        ensures { result ≡ is_fitting self.now cap.now }
    {
        match self.object(cap.object) {
            Some(target) => fits(&target.object, &cap.detail),
            None => false,
        }
    }

    /// Returns whether some capability is for an object.
    #[tactic(auto, unfolding(crate::specs::Building::has_cap_to))]
    pub fn has_cap_to(&self, object: ObjId) -> bool
        ensures { result ≡ has_cap_to self.now object }
    {
        self.caps.is_aimed_at(object)
    }

    /// Returns the pairs of the derivation tree, rising by child.
    pub fn pairs(&self) -> &[Pair]
        ensures { result.now ≡ self.now.pairs }
    {
        self.pairs.as_slice()
    }

    /// Returns whether a slot is above those that are children.
    #[tactic(auto, unfolding(crate::specs::Building::is_above_pairs))]
    pub fn is_above_pairs(&self, slot: SlotRef) -> bool
        ensures { result ≡ is_above_pairs self.now slot }
    {
        match self.pairs.as_slice().last() {
            Some(last) => last.child < slot,
            None => true,
        }
    }

    /// Returns the bound threads with their contexts, rising by thread.
    pub fn bindings(&self) -> &[Binding]
        ensures { result.now ≡ self.now.bindings }
    {
        self.bindings.as_slice()
    }

    /// Returns the last of the bindings, if there is one.
    pub fn last_binding(&self) -> Option<Binding>
        ensures { result ≡ last_binding self.now }
    {
        self.bindings.as_slice().last().copied()
    }

    /// The thread that a context is bound to.
    #[tactic(auto, unfolding(machine::specs::Layout::bound_thread))]
    pub(crate) fn bound_thread(&self, context: ObjId) -> Option<ObjId>
        ensures { result ≡ bound_thread self.now context }
    {
        self.bindings.thread(context)
    }

    /// Returns whether a thread is above those that the table binds.
    #[tactic(auto, unfolding(crate::specs::Building::is_above_bindings))]
    pub fn is_above_bindings(&self, thread: ObjId) -> bool
        ensures { result ≡ is_above_bindings self.now thread }
    {
        match self.bindings.as_slice().last() {
            Some(last) => last.thread.0 < thread.0,
            None => true,
        }
    }

    /// Returns whether a context is bound to a thread.
    #[tactic(auto, using(crate::proofs::BindingAdded::has_thread), unfolding(crate::specs::Building::is_bound))]
    pub fn is_bound(&self, context: ObjId) -> bool
        ensures { result ≡ is_bound self.now context }
    {
        self.bindings.thread(context).is_some()
    }

    /// Adds a label.
    ///
    /// # Errors
    ///
    /// [`AllocError`] where memory is refused. Then nothing has changed.
    #[tactic(auto, unfolding(crate::specs::Names::label_named))]
    pub fn add_label(&mut self, name: &str) -> Result<(), AllocError>
        requires { AdmitsLabel self.old name.now }
        ensures ok { OnOk result (self.new ≡ with_label self.old name.now) }
        ensures err { OnErr result (self.new ≡ self.old) }
    {
        self.labels.add(name)?;
        Ok(())
    }

    /// Adds an object under a name.
    ///
    /// # Errors
    ///
    /// [`AllocError`] where memory is refused. Then nothing has changed.
    #[tactic(auto, unfolding(crate::specs::Names::object_named, crate::specs::Building::has_room, crate::specs::Building::is_free))]
    pub fn add_object(&mut self, name: &str, initial: Initial) -> Result<(), AllocError>
        requires { AdmitsObject self.old name.now initial }
        ensures ok { OnOk result (self.new ≡ with_initial self.old name.now initial) }
        ensures err { OnErr result (self.new ≡ self.old) }
    {
        self.objects.add(name, initial)?;
        Ok(())
    }

    /// Fills a slot.
    ///
    /// # Errors
    ///
    /// [`AllocError`] where memory is refused. Then nothing has changed.
    pub fn add_cap(&mut self, filled: Filled) -> Result<(), AllocError>
        requires { AdmitsCap self.old filled }
        ensures ok { OnOk result (self.new ≡ with_filled self.old filled) }
        ensures err { OnErr result (self.new ≡ self.old) }
    {
        self.caps.add(filled)?;
        Ok(())
    }

    /// Adds a pair of the derivation tree: a capability and its parent.
    ///
    /// # Errors
    ///
    /// [`AllocError`] where memory is refused. Then nothing has changed.
    pub fn add_pair(&mut self, pair: Pair) -> Result<(), AllocError>
        requires { AdmitsPair self.old pair }
        ensures ok { OnOk result (self.new ≡ with_pair self.old pair) }
        ensures err { OnErr result (self.new ≡ self.old) }
    {
        self.pairs.push(pair)?;
        Ok(())
    }

    /// Binds a thread to a context.
    ///
    /// # Errors
    ///
    /// [`AllocError`] where memory is refused. Then nothing has changed.
    pub fn add_binding(&mut self, binding: Binding) -> Result<(), AllocError>
        requires { AdmitsBinding self.old binding }
        ensures ok { OnOk result (self.new ≡ with_binding self.old binding) }
        ensures err { OnErr result (self.new ≡ self.old) }
    {
        self.bindings.add(binding)?;
        Ok(())
    }

    /// Returns the table, if its derivation tree keeps the rules.
    ///
    /// The call takes no memory.
    ///
    /// # Errors
    ///
    /// The number of the first pair that breaks a rule of the tree, from 0.
    pub fn into_table(mut self) -> Result<Table, usize>
        ensures ok { IfOk result (λ table. (table ≡ with_originals self) × (tree_fault (with_originals self) ≡ None)) }
        ensures err { IfErr result (λ number. tree_fault (with_originals self) ≡ Some number) }
    {
        self.mark_originals();
        match self.tree_fault() {
            Some(number) => Err(number),
            None => Ok(Table::of(self)),
        }
    }

    /// Marks each capability as original or not, as the pairs say.
    fn mark_originals(&mut self)
        ensures marked { self.new ≡ with_originals self.old }
        ensures lawful { tree_fault self.new ≡ None → IsLawful self.new }
    {
        self.caps.mark_originals(self.pairs.as_slice());
    }

    /// The number of the first pair that breaks a rule of the tree.
    #[tactic(auto, unfolding(crate::specs::Tree::tree_fault, crate::specs::Tree::is_kin, machine::specs::Layout::initial_cap))]
    fn tree_fault(&self) -> Option<usize>
        ensures { result ≡ tree_fault self.now }
    {
        tree_fault(self.caps.as_slice(), self.pairs.as_slice())
    }
}

fn is_controlled(objects: &[Initial], core: CoreNo) -> bool
    ensures { result ≡ list_any (λ initial. is_control_of initial.object core) objects.now }
{
    objects
        .iter()
        .any(|initial| is_control_of(&initial.object, core))
}

fn is_control_of(object: &Object, core: CoreNo) -> bool
    ensures { result ≡ is_control_of object.now core }
{
    match object {
        Object::Control(control) => control.core == core,
        _ => false,
    }
}

/// Whether a capability's rights are below a bound, as bits; its badge is a word.
fn is_badged(rights: u8, end: Badged) -> bool
    ensures { result ≡ is_badged rights end }
{
    let _word = end.badge;
    end.rights.bits() < rights
}

fn fits(object: &Object, detail: &Detail) -> bool
    ensures { result ≡ fits object.now detail.now }
{
    match (object, detail) {
        (Object::CNode(node), Detail::CNode(guard)) => {
            guard.size <= 64 - node.radix.bits() && guard.value >> guard.size == 0
        }
        (Object::Endpoint(_), Detail::Endpoint(end)) => is_badged(16, *end),
        (Object::Notification(_), Detail::Notification(end)) => is_badged(4, *end),
        (Object::Frame(_), Detail::Frame(rights)) => rights.bits() < 4,
        (Object::Untyped(_), Detail::Untyped)
        | (Object::Tcb(_), Detail::Tcb)
        | (Object::Reply(_), Detail::Reply)
        | (Object::Context(_), Detail::Context)
        | (Object::Control(_), Detail::Control) => true,
        _ => false,
    }
}
