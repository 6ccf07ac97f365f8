//! Rules for the attributes of elements, and the forms of their values (Microkit user manual, "System Description File").
ghost use Rattle.std.specs.Prelude.{◌≡◌, map};
ghost use Rattle.microkit.specs.{FormView.rule_of, Forms.rules_of};

use crate::kinds::Kind;

/// The form of a value.
#[derive(Clone, Copy, PartialEq, Eq)]
pub enum Form {
    /// Any text.
    Text,
    /// Any text that isn't empty.
    Name,
    /// A number below 2 ^ 64, in decimal, or in hexadecimal after `0x`; `_` may stand anywhere among the digits.
    Number,
    /// `true` or `false`.
    Flag,
    /// 4 KiB or 2 MiB.
    PageSize,
    /// Some of `r`, `w` and `x`, but not `w` without `r`.
    Rights,
    /// `level` or `edge`.
    Trigger,
}

/// Whether an attribute must be given.
#[derive(Clone, Copy, PartialEq, Eq)]
pub enum Need {
    Required,
    Optional,
}

/// An attribute that an element may have: its name, its form, and whether it must be given.
#[derive(Clone, Copy)]
pub struct Rule(pub &'static str, pub Form, pub Need);

/// Returns the attributes that an element of this kind may have.
#[tactic(auto, unfolding(crate::specs::Forms::rules_of))]
pub fn rules_of(kind: Kind) -> &'static [Rule]
    ensures { map rule_of result.now ≡ rules_of kind }
{
    match kind {
        Kind::Region => &REGION,
        Kind::Domain => &DOMAIN,
        Kind::Child => &CHILD,
        Kind::Image => &IMAGE,
        Kind::Map | Kind::MachineMap => &MAP,
        Kind::Interrupt => &INTERRUPT,
        Kind::Port => &PORT,
        Kind::Variable => &VARIABLE,
        Kind::Machine => &MACHINE,
        Kind::Processor => &PROCESSOR,
        Kind::End => &END,
        Kind::Document | Kind::System | Kind::Channel => &[],
    }
}

const REGION: [Rule; 5] = [
    Rule("name", Form::Name, Need::Required),
    Rule("size", Form::Number, Need::Required),
    Rule("page_size", Form::PageSize, Need::Optional),
    Rule("phys_addr", Form::Number, Need::Optional),
    Rule("prefill_path", Form::Text, Need::Optional),
];

const DOMAIN: [Rule; 10] = [
    Rule("name", Form::Name, Need::Required),
    Rule("priority", Form::Number, Need::Optional),
    Rule("budget", Form::Number, Need::Optional),
    Rule("period", Form::Number, Need::Optional),
    Rule("passive", Form::Flag, Need::Optional),
    Rule("stack_size", Form::Number, Need::Optional),
    Rule("smc", Form::Flag, Need::Optional),
    Rule("cpu", Form::Number, Need::Optional),
    Rule("fpu", Form::Flag, Need::Optional),
    Rule("pp", Form::Flag, Need::Optional),
];

// A domain within another one has these and the id by which its parent knows it.
const CHILD: [Rule; 12] = [
    Rule("id", Form::Number, Need::Required),
    Rule("setvar_id", Form::Text, Need::Optional),
    Rule("name", Form::Name, Need::Required),
    Rule("priority", Form::Number, Need::Optional),
    Rule("budget", Form::Number, Need::Optional),
    Rule("period", Form::Number, Need::Optional),
    Rule("passive", Form::Flag, Need::Optional),
    Rule("stack_size", Form::Number, Need::Optional),
    Rule("smc", Form::Flag, Need::Optional),
    Rule("cpu", Form::Number, Need::Optional),
    Rule("fpu", Form::Flag, Need::Optional),
    Rule("pp", Form::Flag, Need::Optional),
];

const IMAGE: [Rule; 2] = [
    Rule("path", Form::Text, Need::Required),
    Rule("path_for_symbols", Form::Text, Need::Optional),
];

const MAP: [Rule; 7] = [
    Rule("mr", Form::Text, Need::Required),
    Rule("vaddr", Form::Number, Need::Required),
    Rule("perms", Form::Rights, Need::Optional),
    Rule("cached", Form::Flag, Need::Optional),
    Rule("setvar_vaddr", Form::Text, Need::Optional),
    Rule("setvar_size", Form::Text, Need::Optional),
    Rule("setvar_prefill_size", Form::Text, Need::Optional),
];

const INTERRUPT: [Rule; 4] = [
    Rule("irq", Form::Number, Need::Required),
    Rule("id", Form::Number, Need::Required),
    Rule("trigger", Form::Trigger, Need::Optional),
    Rule("setvar_id", Form::Text, Need::Optional),
];

const PORT: [Rule; 5] = [
    Rule("id", Form::Number, Need::Required),
    Rule("addr", Form::Number, Need::Required),
    Rule("size", Form::Number, Need::Required),
    Rule("setvar_id", Form::Text, Need::Optional),
    Rule("setvar_addr", Form::Text, Need::Optional),
];

const VARIABLE: [Rule; 2] = [
    Rule("symbol", Form::Text, Need::Required),
    Rule("region_paddr", Form::Text, Need::Required),
];

// Before version 1.4 a virtual machine has one processor, with this id.
const MACHINE: [Rule; 5] = [
    Rule("name", Form::Name, Need::Required),
    Rule("priority", Form::Number, Need::Optional),
    Rule("budget", Form::Number, Need::Optional),
    Rule("period", Form::Number, Need::Optional),
    Rule("id", Form::Number, Need::Optional),
];

const PROCESSOR: [Rule; 3] = [
    Rule("id", Form::Number, Need::Required),
    Rule("setvar_id", Form::Text, Need::Optional),
    Rule("cpu", Form::Number, Need::Optional),
];

const END: [Rule; 5] = [
    Rule("pd", Form::Text, Need::Required),
    Rule("id", Form::Number, Need::Required),
    Rule("pp", Form::Flag, Need::Optional),
    Rule("notify", Form::Flag, Need::Optional),
    Rule("setvar_id", Form::Text, Need::Optional),
];
