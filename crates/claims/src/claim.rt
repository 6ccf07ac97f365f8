//! Claims, each on labels of a table.
ghost use Rattle.std.specs.{Cmp.Lexicographic.pointwise, Prelude.{[], ℕ, ◌++◌, ◌==◌, ◌∷◌, ◌≡◌, OnErr, OnOk}};
ghost use Rattle.{base.specs.Labels.is_in, claims.specs.Claims.{is_one_of, most_word, same_claim, same_most, same_who}};

use base::{Kind, Label, Labels};
use std::alloc::{AllocError, Global};
use std::marker::Model;

/// The most authority that `none` or `take` leaves to a label on another.
#[derive(Clone, Copy, PartialEq, Eq)]
pub enum Most {
    /// Neither full authority nor to take.
    Nothing,
    /// To take, and no full authority.
    Take,
}

impl Most {
    /// Returns the word that begins the line of such a claim.
    pub fn word(self) -> &'static str
        ensures { result.now ≡ most_word self }
    {
        match self {
            Most::Nothing => "none",
            Most::Take => "take",
        }
    }
}

/// The labels that one end of a claim names.
#[derive(Clone, Copy, PartialEq, Eq)]
pub enum Who {
    /// This label.
    One(Label),
    /// Each label but that of the other end.
    Others,
}

/// Labels, in the order in which a claim names them.
#[derive(Drop)]
pub struct LabelList {
    labels: Vec<Label>,
}

impl Model for LabelList {
    ghost use Rattle.std.specs.Prelude.{ℕ, List};

    ghost Value = { List ℕ };

    ghost view = { λ list. list.labels.items };
}

impl LabelList {
    /// Returns a list without labels.
    pub fn new(alloc: Global) -> LabelList
        ensures { result ≡ [] }
    {
        LabelList {
            labels: Vec::new(alloc),
        }
    }

    /// Returns the labels.
    pub fn as_slice(&self) -> &[Label]
        ensures { result.now ≡ self.now }
    {
        self.labels.as_slice()
    }

    /// Returns the set of the labels.
    pub fn set(&self) -> Labels
        ensures { (label : ℕ) → is_in result label ≡ is_one_of self.now label }
    {
        let mut set = Labels::none();
        for label in self.as_slice() {
            set = set.union(Labels::only(*label));
        }
        set
    }

    /// Adds a label behind the others.
    ///
    /// # Errors
    ///
    /// [`AllocError`] where memory is refused. Then nothing has changed.
    pub fn push(&mut self, label: Label) -> Result<(), AllocError>
        ensures ok { OnOk result (self.new ≡ self.old ++ label ∷ []) }
        ensures err { OnErr result (self.new ≡ self.old) }
    {
        self.labels.push(label)?;
        Ok(())
    }
}

/// A claim.
#[derive(Drop)]
pub enum Claim {
    /// `none` and `take`: labels of the one end have no more authority on those of the other than this.
    AtMost(Most, Who, Who),
    /// `only`: objects of the label are changed by threads of its own and of these labels alone.
    Only(Label, LabelList),
    /// `within`: threads of the label change objects of its own and of these labels alone.
    Within(Label, LabelList),
    /// `readers`: the label and these labels alone have a way to read objects of the label.
    Readers(Label, LabelList),
    /// `apart`, and with filters `through`: no chain of flows leads from the first label to the second, but
    /// through these filters.
    Through(Label, Label, LabelList),
    /// `without`: labels of the one end never have this kind of authority on those of the other.
    Without(Who, Kind, Who),
}

/// Whether two claims leave as much.
fn is_same_most(one: Most, other: Most) -> bool
    ensures { result ≡ same_most one other }
{
    one == other
}

/// Whether two ends name the same labels.
fn is_same_who(one: Who, other: Who) -> bool
    ensures { result ≡ same_who one other }
{
    one == other
}

/// Whether two lists have the same labels in the same order.
fn are_same_labels(one: &LabelList, other: &LabelList) -> bool
    ensures { result ≡ pointwise ◌==◌ one.now other.now }
{
    one.as_slice() == other.as_slice()
}

impl Claim {
    /// Returns whether this is the other claim, word by word.
    pub fn is(&self, other: &Claim) -> bool
        ensures { result ≡ same_claim self.now other.now }
    {
        match (self, other) {
            (
                Claim::AtMost(most, actor, object),
                Claim::AtMost(other_most, other_actor, other_object),
            ) => {
                is_same_most(*most, *other_most)
                    && is_same_who(*actor, *other_actor)
                    && is_same_who(*object, *other_object)
            }
            (Claim::Only(object, actors), Claim::Only(other_object, other_actors)) => {
                object.number() == other_object.number() && are_same_labels(actors, other_actors)
            }
            (Claim::Within(actor, objects), Claim::Within(other_actor, other_objects)) => {
                actor.number() == other_actor.number() && are_same_labels(objects, other_objects)
            }
            (Claim::Readers(object, readers), Claim::Readers(other_object, other_readers)) => {
                object.number() == other_object.number() && are_same_labels(readers, other_readers)
            }
            (
                Claim::Through(from, to, filters),
                Claim::Through(other_from, other_to, other_filters),
            ) => {
                from.number() == other_from.number()
                    && to.number() == other_to.number()
                    && are_same_labels(filters, other_filters)
            }
            (
                Claim::Without(actor, kind, object),
                Claim::Without(other_actor, other_kind, other_object),
            ) => {
                is_same_who(*actor, *other_actor)
                    && kind.number() == other_kind.number()
                    && is_same_who(*object, *other_object)
            }
            _ => false,
        }
    }
}
