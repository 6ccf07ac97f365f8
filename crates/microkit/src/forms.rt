//! Forms of elements: their attributes, and the forms of their values.
ghost use Rattle.std.specs.{List.{list_all, list_any, position}, Prelude.{◌&&◌, ◌≡◌, codes, map, not}, Str.bytes_eq};
ghost use Rattle.xml.specs.{Tag.is_given, View.{node_of, pair_of, pairs_of}};
ghost use Rattle.microkit.specs.{FormView.rule_of, Forms.{first_stray, first_unmet, follows, form_at, has_byte, has_form, is_met}};
ghost use Rattle.microkit.specs.Forms.{is_name, is_page_size, is_right, is_rights, limits_at};

use crate::attributes::number_or;
use crate::flaws::Flaw;
use crate::kinds::Kind;
use crate::numbers::{flag_of, number_of};
use crate::rules::{Form, Need, Rule, rules_of};
use xml::{Attribute, Element};

/// The largest id.
pub const MAX_ID: u64 = 61;

/// The largest priority.
pub const MAX_PRIORITY: u64 = 254;

/// Checks that an element has its form.
///
/// # Errors
///
/// The first attribute that is unknown or malformed, else the first that is missing, else that the
/// id or the priority is too large.
#[tactic(auto, unfolding(crate::specs::Forms::form_at, words::specs::Reading::bind))]
pub(crate) fn check_form(kind: Kind, element: &Element<'_>) -> Result<(), Flaw>
    ensures { result ≡ form_at kind (node_of element.now) }
{
    let rules = rules_of(kind);
    if let Some(number) = first_stray(rules, &element.attributes) {
        return Err(Flaw::Attribute(kind, number));
    }
    if let Some(number) = first_unmet(rules, &element.attributes) {
        return Err(Flaw::Missing(kind, number));
    }
    check_limits(element)
}

#[tactic(auto, unfolding(crate::specs::Forms::limits_at))]
fn check_limits(element: &Element<'_>) -> Result<(), Flaw>
    ensures { result ≡ limits_at (node_of element.now) }
{
    if number_or(element, b"id", 0) > MAX_ID {
        return Err(Flaw::LargeId);
    }
    if number_or(element, b"priority", 0) > MAX_PRIORITY {
        return Err(Flaw::LargePriority);
    }
    Ok(())
}

fn first_stray(rules: &[Rule], attributes: &[Attribute<'_>]) -> Option<usize>
    ensures { result ≡ first_stray (map rule_of rules.now) (pairs_of attributes.now) }
{
    stray_place(rules, attributes)
}

// `first_stray`, stated of the rules and attributes as stored.
fn stray_place(rules: &[Rule], attributes: &[Attribute<'_>]) -> Option<usize>
    ensures { result ≡ position
        (λ attribute. not (list_any (λ rule. follows (pair_of attribute) (rule_of rule)) rules.now))
        attributes.now }
{
    attributes
        .iter()
        .position(|attribute| !is_allowed(rules, attribute))
}

fn is_allowed(rules: &[Rule], attribute: &Attribute<'_>) -> bool
    ensures { result ≡ list_any (λ rule. follows (pair_of attribute.now) (rule_of rule)) rules.now }
{
    rules.iter().any(|rule| follows(attribute, rule))
}

fn follows(attribute: &Attribute<'_>, rule: &Rule) -> bool
    ensures { result ≡ follows (pair_of attribute.now) (rule_of rule.now) }
{
    rule.0.as_bytes() == attribute.name && has_form(rule.1, &attribute.value)
}

fn first_unmet(rules: &[Rule], attributes: &[Attribute<'_>]) -> Option<usize>
    ensures { result ≡ first_unmet (map rule_of rules.now) (pairs_of attributes.now) }
{
    unmet_place(rules, attributes)
}

// `first_unmet`, stated of the rules as stored.
fn unmet_place(rules: &[Rule], attributes: &[Attribute<'_>]) -> Option<usize>
    ensures { result ≡ position (λ rule. not (is_met (pairs_of attributes.now) (rule_of rule))) rules.now }
{
    rules.iter().position(|rule| !is_met(attributes, rule))
}

fn is_met(attributes: &[Attribute<'_>], rule: &Rule) -> bool
    ensures { result ≡ is_met (pairs_of attributes.now) (rule_of rule.now) }
{
    match rule.2 {
        Need::Optional => true,
        Need::Required => is_given(attributes, rule.0.as_bytes()),
    }
}

fn is_given(attributes: &[Attribute<'_>], name: &[u8]) -> bool
    ensures { result ≡ is_given (pairs_of attributes.now) name.now }
{
    has_name(attributes, name)
}

// `is_given`, stated of the attributes as stored.
fn has_name(attributes: &[Attribute<'_>], name: &[u8]) -> bool
    ensures { result ≡ list_any (λ attribute. bytes_eq attribute.name.now name.now) attributes.now }
{
    attributes.iter().any(|attribute| attribute.name == name)
}

/// Returns whether a value has a form.
#[tactic(auto, unfolding(crate::specs::Forms::has_form))]
pub fn has_form(form: Form, value: &[u8]) -> bool
    ensures { result ≡ has_form form value.now }
{
    match form {
        Form::Text => true,
        Form::Name => is_name(value),
        Form::Number => number_of(value).is_some(),
        Form::Flag => flag_of(value).is_some(),
        Form::PageSize => is_page_size(number_of(value)),
        Form::Rights => is_rights(value),
        Form::Trigger => value == b"level".as_slice() || value == b"edge".as_slice(),
    }
}

#[tactic(auto, unfolding(crate::specs::Forms::is_name))]
fn is_name(value: &[u8]) -> bool
    ensures { result ≡ is_name value.now }
{
    match value {
        [] => false,
        [_, ..] => true,
    }
}

#[tactic(auto, unfolding(crate::specs::Forms::is_page_size))]
fn is_page_size(size: Option<u64>) -> bool
    ensures { result ≡ is_page_size size }
{
    match size {
        Some(size) => size == 4096 || size == 2_097_152,
        None => false,
    }
}

#[tactic(auto, unfolding(crate::specs::Forms::is_rights))]
fn is_rights(value: &[u8]) -> bool
    ensures { result ≡ is_rights value.now }
{
    match value {
        [] => false,
        [_, ..] => all_rights(value) && (!has_byte(b'w', value) || has_byte(b'r', value)),
    }
}

fn all_rights(value: &[u8]) -> bool
    ensures { result ≡ list_all is_right value.now }
{
    value
        .iter()
        .all(|byte| *byte == b'r' || *byte == b'w' || *byte == b'x')
}

/// Whether a byte stands in a value.
pub(crate) fn has_byte(byte: u8, value: &[u8]) -> bool
    ensures { result ≡ has_byte byte value.now }
{
    value.iter().any(|b| *b == byte)
}
