//! Drafts: the part of a description that was read so far, and the place where an element stands.
ghost use Rattle.std.specs.{Option.option_copied, Prelude.{[], ◌++◌, ◌∷◌, ◌≡◌, IfOk, OnOk}};
ghost use Rattle.xml.specs.View.{node_of};
ghost use Rattle.microkit.specs.{Draft.{entered, free_at, innermost, inside, line_of_id, no_draft, outer_path, place_at}, Flaws.Takes};

use crate::description::{Description, End, Id};
use crate::flaws::{Flaw, Refusal, Spot};
use crate::kinds::{Kind, kind_within};
use std::alloc::{AllocError, Global};
use std::marker::Model;
use xml::Element;

/// The place of an element: its kind, and the numbers of the domain and of the virtual machine that
/// it stands in, 0 if it stands in none.
#[derive(Clone, Copy)]
pub(crate) struct Place {
    pub kind: Kind,
    pub domain: usize,
    pub machine: usize,
}

/// The place outside of the root.
const OUTERMOST: Place = Place {
    kind: Kind::Document,
    domain: 0,
    machine: 0,
};

/// A channel that hasn't its two ends yet.
#[derive(Clone, Copy)]
pub(crate) struct Begun {
    pub spot: Spot,
    pub first: Option<End>,
}

/// An id, and the line that has it.
#[derive(Clone, Copy)]
pub(crate) struct Taken {
    pub id: Id,
    pub line: u64,
}

/// The part of a description that was read so far.
#[derive(Drop)]
pub(crate) struct Draft {
    pub description: Description,
    // The elements that the next one may stand in, the outermost first.
    pub path: Vec<Place>,
    pub begun: Option<Begun>,
    // The ids of interrupts and channels.
    pub ids: Vec<Taken>,
    // The ids of children and virtual processors.
    pub children: Vec<Taken>,
}

impl Model for Draft {
    ghost use Rattle.microkit.specs.{Draft.Draft, View.description_of};

    ghost Value = { Draft };

    ghost view = { λ d. record {
      description = description_of d.description;
      path = d.path.items;
      begun = d.begun;
      ids = d.ids.items;
      children = d.children.items;
    } };
}

impl Draft {
    #[tactic(auto, unfolding(crate::specs::Draft::no_draft))]
    pub(crate) fn new(alloc: Global) -> Draft
        ensures { result ≡ no_draft }
    {
        Draft {
            description: Description {
                regions: Vec::new(alloc),
                domains: Vec::new(alloc),
                machines: Vec::new(alloc),
                processors: Vec::new(alloc),
                maps: Vec::new(alloc),
                interrupts: Vec::new(alloc),
                ports: Vec::new(alloc),
                variables: Vec::new(alloc),
                channels: Vec::new(alloc),
            },
            path: Vec::new(alloc),
            begun: None,
            ids: Vec::new(alloc),
            children: Vec::new(alloc),
        }
    }

    /// Enters an element, and returns its place.
    ///
    /// # Errors
    ///
    /// [`Flaw::Element`] if such an element may not stand there.
    #[tactic(auto, unfolding(crate::specs::Draft::place_at, crate::specs::Draft::known_kind, words::specs::Reading::bind))]
    pub(crate) fn enter(&mut self, element: &Element<'_>) -> Result<Place, Refusal>
        ensures { Takes (λ place. (place, self.new)) result (place_at (node_of element.now) self.old) }
    {
        self.path.truncate(element.level.saturating_sub(1));
        let outer = self.innermost();
        let kind = kind_within(outer.kind, element.name).ok_or(Flaw::Element(outer.kind))?;
        let place = Place { kind, ..outer };
        let inside = self.inside(place);
        self.path.push(inside)?;
        Ok(place)
    }

    // The innermost of the elements on the path.
    fn innermost(&self) -> Place
        ensures { result ≡ innermost self.now.path }
    {
        self.path.last().copied().unwrap_or(OUTERMOST)
    }

    // The place of what stands within an element.
    #[tactic(auto, unfolding(crate::specs::Draft::inside))]
    fn inside(&self, place: Place) -> Place
        ensures { result ≡ inside self.now.description place }
    {
        match place.kind {
            Kind::Domain | Kind::Child => Place {
                domain: self.description.domains.len(),
                ..place
            },
            Kind::Machine => Place {
                machine: self.description.machines.len(),
                ..place
            },
            _ => place,
        }
    }
}

/// Checks that an id isn't given yet.
///
/// # Errors
///
/// [`Flaw::Id`] if it is.
#[tactic(auto, unfolding(crate::specs::Draft::free_at))]
pub(crate) fn check_free(ids: &[Taken], id: Id) -> Result<(), Flaw>
    ensures { result ≡ free_at ids.now id }
{
    match line_of_id(ids, id) {
        None => Ok(()),
        Some(line) => Err(Flaw::Id(line)),
    }
}

fn line_of_id(ids: &[Taken], id: Id) -> Option<u64>
    ensures { result ≡ line_of_id ids.now id }
{
    let taken = ids.iter().find(|one| one.id.domain == id.domain && one.id.number == id.number)?;
    Some(taken.line)
}
