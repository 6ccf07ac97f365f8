//! Elements of a description, and where they stand.
use microkit::number_of;
use xml::{Attribute, Element};

/// An element, by its number in the document.
#[derive(Clone, Copy)]
pub(crate) struct Place<'a, 't> {
    pub elements: &'a [Element<'t>],
    pub number: usize,
}

impl<'a, 't> Place<'a, 't> {
    /// Returns the element, if there is one.
    pub(crate) fn element(self) -> Option<&'a Element<'t>> {
        self.elements.get(self.number)
    }

    /// Returns the element's name, which is empty if there is no element.
    pub(crate) fn name(self) -> &'a [u8] {
        match self.element() {
            Some(element) => element.name,
            None => b"",
        }
    }

    /// Returns the line of the element, which is 0 if there is none.
    pub(crate) fn line(self) -> u64 {
        match self.element() {
            Some(element) => element.line,
            None => 0,
        }
    }

    /// Returns the level of the element, which is 0 if there is none.
    pub(crate) fn level(self) -> usize {
        match self.element() {
            Some(element) => element.level,
            None => 0,
        }
    }

    /// Returns the attribute of this name.
    pub(crate) fn attribute(self, name: &str) -> Option<&'a Attribute<'t>> {
        self.element()?
            .attributes
            .iter()
            .find(|attribute| attribute.name == name.as_bytes())
    }

    /// Returns the name of the attribute of this number, which is empty if there is none.
    pub(crate) fn attribute_name(self, number: usize) -> &'a [u8] {
        match self.element() {
            Some(element) => match element.attributes.get(number) {
                Some(attribute) => attribute.name,
                None => b"",
            },
            None => b"",
        }
    }

    /// Returns the value of an attribute.
    pub(crate) fn value(self, name: &str) -> Option<&'a [u8]> {
        Some(&self.attribute(name)?.value)
    }

    /// Returns the number of an attribute.
    pub(crate) fn number_in(self, name: &str) -> Option<u64> {
        number_of(self.value(name)?)
    }

    /// Returns the element of this number in the same document.
    pub(crate) fn at(self, number: usize) -> Place<'a, 't> {
        Place {
            elements: self.elements,
            number,
        }
    }

    /// Returns the element in which it stands, if it isn't the root.
    pub(crate) fn outer(self) -> Option<Place<'a, 't>> {
        let level = self.element()?.level;
        let mut found = None;
        for (number, element) in self.elements.iter().enumerate() {
            if number < self.number && element.level < level {
                found = Some(self.at(number));
            }
        }
        found
    }

    /// Returns the domain in which it stands.
    pub(crate) fn domain(self) -> Option<Place<'a, 't>> {
        let mut place = self;
        for _ in 0..self.elements.len() {
            place = place.outer()?;
            if place.is_named("protection_domain") {
                return Some(place);
            }
        }
        None
    }

    /// Whether the element has this name.
    pub(crate) fn is_named(self, name: &str) -> bool {
        self.name() == name.as_bytes()
    }
}
