//! Reading a text as a description, or the elements of a document.
ghost use Rattle.std.specs.Prelude.{◌≡◌, IfOk, Ok};
ghost use Rattle.{words.specs.Reading.Reads, xml.specs.View.{node_of, nodes_of}};
ghost use Rattle.microkit.specs.{Flaws.{Takes, TakesAll}, Reading.{all_taken, description_at, description_of_text, element_at}};
ghost use Rattle.microkit.specs.{Reading.{elements_at, part_at, region_part_at}, Sound.IsSound, View.description_of};

use crate::channels::check_whole;
use crate::description::Description;
use crate::draft::{Draft, Place};
use crate::flaws::{ReadError, Refusal, Spot};
use crate::forms::check_form;
use crate::images::check_images;
use crate::kinds::Kind;
use std::alloc::Global;
use words::Fault;
use xml::{Element, read_document};

// The part of a description that is taken from the elements in one pass.
#[derive(Clone, Copy)]
enum Phase {
    Forms,
    Regions,
    Domains,
    Channels,
}

/// Reads the text of a description.
///
/// The forms of all elements are checked first, then the regions, the domains with what stands in
/// them, and the channels, each in the order of the text. The first fault found is returned.
///
/// # Errors
///
/// The fault and its line: 50 if the text isn't XML or an element hasn't its form, 51 if a name
/// is unknown, 52 if a name, an id or an interrupt is given twice, 54 if a limit is passed, 55
/// if something doesn't go together. If memory is refused, 40 at line 0.
pub fn read_description(alloc: Global, text: &[u8]) -> Result<Description, Fault>
    // The description, or the first fault.
    ensures exact { Reads (λ description. description_of description) result (description_of_text text.now) }
    // What it names is there.
    ensures sound { IfOk result (λ description. IsSound (description_of description)) }
{
    description_of_text(alloc, text)
}

#[tactic(auto, unfolding(crate::specs::Reading::description_of_text, crate::specs::Flaws::of_text, words::specs::Reading::bind))]
fn description_of_text(alloc: Global, text: &[u8]) -> Result<Description, Fault>
    ensures { Reads (λ description. description_of description) result (description_of_text text.now) }
{
    let elements = read_document(alloc, text)?;
    Ok(read_elements(alloc, &elements)?)
}

/// Reads the elements of a document as a description.
///
/// # Errors
///
/// The fault that [`read_description`] returns for the text of these elements, with the element
/// that has it and what is wrong with the element.
#[tactic(auto, unfolding(crate::specs::Reading::description_at, words::specs::Reading::bind))]
pub fn read_elements(alloc: Global, elements: &[Element<'_>]) -> Result<Description, ReadError>
    ensures { TakesAll (λ description. description_of description) result (description_at (nodes_of elements.now)) }
{
    let mut draft = Draft::new(alloc);
    draft.take_phases(alloc, elements)?;
    check_whole(draft.begun)?;
    Ok(draft.description)
}

impl Draft {
    // Goes over the elements once for each phase.
    #[tactic(auto, unfolding(crate::specs::Reading::all_taken, words::specs::Reading::bind))]
    fn take_phases(&mut self, alloc: Global, elements: &[Element<'_>]) -> Result<(), ReadError>
        ensures { TakesAll (λ _. self.new) result (all_taken (nodes_of elements.now) self.old) }
    {
        self.take_all(alloc, Phase::Forms, elements)?;
        check_images(elements)?;
        self.take_all(alloc, Phase::Regions, elements)?;
        self.take_all(alloc, Phase::Domains, elements)?;
        self.take_all(alloc, Phase::Channels, elements)
    }

    // Takes from all elements what this phase takes.
    #[tactic(auto, using(crate::proofs::Steps::none_left, crate::proofs::Steps::one_taken, crate::proofs::Steps::one_refused))]
    fn take_all(
        &mut self,
        alloc: Global,
        phase: Phase,
        elements: &[Element<'_>],
    ) -> Result<(), ReadError>
        ensures { TakesAll (λ _. self.new) result (elements_at phase 0 (nodes_of elements.now) self.old) }
    {
        for (number, element) in elements.iter().enumerate() {
            let spot = Spot {
                element: number,
                line: element.line,
            };
            self.take(alloc, phase, spot, element)?;
        }
        Ok(())
    }

    #[tactic(auto, unfolding(crate::specs::Reading::element_at, crate::specs::Flaws::of_element, words::specs::Reading::bind))]
    fn take(
        &mut self,
        alloc: Global,
        phase: Phase,
        spot: Spot,
        element: &Element<'_>,
    ) -> Result<(), ReadError>
        ensures { TakesAll (λ _. self.new) result (element_at phase spot (node_of element.now) self.old) }
    {
        match self.enter(element) {
            Ok(place) => self.take_part(alloc, phase, spot, place, element),
            Err(Refusal::Memory) => Err(ReadError::Memory),
            Err(Refusal::Flawed(flaw)) => Err(spot.fault(flaw)),
        }
    }

    #[tactic(auto, unfolding(crate::specs::Reading::part_at, crate::specs::Flaws::of_element, words::specs::Reading::bind))]
    fn take_part(
        &mut self,
        alloc: Global,
        phase: Phase,
        spot: Spot,
        place: Place,
        element: &Element<'_>,
    ) -> Result<(), ReadError>
        ensures { TakesAll (λ _. self.new) result (part_at phase spot place (node_of element.now) self.old) }
    {
        let taken = match phase {
            Phase::Forms => check_form(place.kind, element).map_err(Refusal::Flawed),
            Phase::Regions => self.take_region(alloc, place.kind, element),
            Phase::Domains => self.add_domain_part(alloc, place, element),
            Phase::Channels => return self.add_channel_part(place.kind, spot, element),
        };
        match taken {
            Ok(()) => Ok(()),
            Err(Refusal::Memory) => Err(ReadError::Memory),
            Err(Refusal::Flawed(flaw)) => Err(spot.fault(flaw)),
        }
    }

    #[tactic(auto, unfolding(crate::specs::Reading::region_part_at))]
    fn take_region(
        &mut self,
        alloc: Global,
        kind: Kind,
        element: &Element<'_>,
    ) -> Result<(), Refusal>
        ensures { Takes (λ _. self.new) result (region_part_at kind (node_of element.now) self.old) }
    {
        match kind {
            Kind::Region => self.add_region(alloc, element),
            _ => Ok(()),
        }
    }
}
