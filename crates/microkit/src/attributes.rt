//! The values of an element's attributes: texts, numbers and flags.
ghost use Rattle.std.specs.{Option.option_copied, Prelude.{◌≡◌, IfOk}};
ghost use Rattle.{xml.specs.View.node_of, microkit.specs.Attributes.{flag_in, flag_or, number_in, number_or, text_in, value_in}};

use crate::numbers::{flag_of, number_of};
use std::alloc::{AllocError, Global};
use xml::Element;

/// The value of the attribute of this name.
#[tactic(auto, using(crate::proofs::Pairs::first_value, crate::proofs::Pairs::more_values, crate::proofs::Pairs::no_values))]
pub(crate) fn value_in<'a>(element: &'a Element<'_>, name: &[u8]) -> Option<&'a [u8]>
    ensures { option_copied result ≡ value_in (node_of element.now) name.now }
{
    for attribute in &element.attributes {
        if attribute.name == name {
            return Some(&attribute.value);
        }
    }
    None
}

/// The text of the attribute of this name.
pub(crate) fn text_in(
    alloc: Global,
    element: &Element<'_>,
    name: &[u8],
) -> Result<Vec<u8>, AllocError>
    ensures { IfOk result (λ text. text.items ≡ text_in (node_of element.now) name.now) }
{
    match value_in(element, name) {
        Some(value) => Vec::from_slice(alloc, value),
        None => Ok(Vec::new(alloc)),
    }
}

/// The text of the attribute of this name, in place.
pub(crate) fn name_in<'a>(element: &'a Element<'_>, name: &[u8]) -> &'a [u8]
    ensures { result.now ≡ text_in (node_of element.now) name.now }
{
    match value_in(element, name) {
        Some(value) => value,
        None => b"",
    }
}

/// The number of the attribute of this name.
#[tactic(auto, unfolding(crate::specs::Attributes::number_in))]
pub(crate) fn number_in(element: &Element<'_>, name: &[u8]) -> Option<u64>
    ensures { result ≡ number_in (node_of element.now) name.now }
{
    number_of(value_in(element, name)?)
}

/// The number of the attribute of this name, or its default.
pub(crate) fn number_or(element: &Element<'_>, name: &[u8], default: u64) -> u64
    ensures { result ≡ number_or (node_of element.now) name.now default }
{
    number_in(element, name).unwrap_or(default)
}

/// The flag of the attribute of this name.
#[tactic(auto, unfolding(crate::specs::Attributes::flag_in))]
pub(crate) fn flag_in(element: &Element<'_>, name: &[u8]) -> Option<bool>
    ensures { result ≡ flag_in (node_of element.now) name.now }
{
    flag_of(value_in(element, name)?)
}

/// The flag of the attribute of this name, or its default.
pub(crate) fn flag_or(element: &Element<'_>, name: &[u8], default: bool) -> bool
    ensures { result ≡ flag_or (node_of element.now) name.now default }
{
    flag_in(element, name).unwrap_or(default)
}
