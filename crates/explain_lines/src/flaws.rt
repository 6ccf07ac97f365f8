//! The sentences on lines that don't meet a condition.
use crate::caps::{KindFlaw, Misfit, SlotFlaw};
use crate::claims::ClaimFlaw;
use crate::edges::{EdgeFlaw, Numbered};
use crate::limits::LimitFlaw;
use crate::memory::PlacedFlaw;
use crate::names::{Twice, TwiceFlaw};
use crate::numbers::EventFlaw;
use crate::order::{OrderFlaw, Ranked};
use crate::tree::TreeFlaw;
use forms::{File, Form, LayoutFlaw, OfLayout, WordFlaw, near_layout, near_word};
use std::alloc::{AllocError, Global};
use std::fmt::{self, Display};

/// Adds the sentence on a flaw, or, if there is none, the words that a line of the form has.
pub(crate) fn push<F: Display + Drop>(
    lines: &mut String,
    form: Form,
    flaw: Option<F>,
) -> Result<(), AllocError> {
    match flaw {
        Some(flaw) => write!(lines, "{flaw}"),
        None => push_other(lines, form),
    }
}

/// Adds the words that a line of the form has.
pub(crate) fn push_other(lines: &mut String, form: Form) -> Result<(), AllocError> {
    let words = form.words();
    write!(lines, "expected {words}")
}

/// Adds the sentence on a flaw of a line whatever its words are, with the nearest word to an unknown one.
pub(crate) fn push_layout(
    alloc: Global,
    lines: &mut String,
    file: File,
    flaw: LayoutFlaw<'_>,
) -> Result<(), AllocError> {
    let flaw = near_layout(alloc, file, flaw)?;
    let flaw = OfLayout { file, flaw };
    write!(lines, "{flaw}")
}

/// Adds the sentence on a flaw of a word in a line of the form, with the nearest word to an unknown one.
pub(crate) fn push_word(
    alloc: Global,
    lines: &mut String,
    form: Form,
    flaw: WordFlaw<'_>,
) -> Result<(), AllocError> {
    let flaw = near_word(alloc, flaw)?;
    write!(lines, "{flaw}")?;
    match flaw {
        WordFlaw::Missing(_) | WordFlaw::TooMany(_) => {
            lines.push_str(": ")?;
            push_other(lines, form)
        }
        _ => Ok(()),
    }
}

impl fmt::Display for EventFlaw<'_> {
    fn fmt<W: fmt::Write>(&self, f: &mut fmt::Formatter<W>) -> fmt::Result {
        match *self {
            EventFlaw::Misplaced(file, call) => {
                let flaw = LayoutFlaw::Misplaced(call);
                OfLayout { file, flaw }.fmt(f)
            }
            EventFlaw::NoCore(word) => write!(
                f,
                "`{word}` isn't a decimal number: the first word is the number of a core"
            ),
            EventFlaw::Thread(file, name, number) => {
                let text = file.name();
                write!(
                    f,
                    "a {text} has a thread's number in place of its name: write {number} for `{name}`"
                )
            }
            EventFlaw::NoThread(name, form) => {
                let noun = noun(form);
                write!(
                    f,
                    "`{name}` is {noun}, not a thread: the second word is the number of a thread"
                )
            }
            EventFlaw::NoNumber(word) => write!(
                f,
                "`{word}` isn't a decimal number: the second word is the number of a thread, which `confine list` shows"
            ),
            EventFlaw::Operand(name) => write!(
                f,
                "`{name}` isn't a decimal number: write the address at which the thread finds a capability for it"
            ),
        }
    }
}

impl fmt::Display for OrderFlaw<'_> {
    fn fmt<W: fmt::Write>(&self, f: &mut fmt::Formatter<W>) -> fmt::Result {
        let (what, line) = (self.what, self.line);
        let (word, earlier) = (self.here.word, self.before.word);
        if word == earlier {
            return write!(
                f,
                "{what} must be in rising order, but `{word}` is already in line {line}"
            );
        }
        let numbers = Numbers {
            here: self.here,
            before: self.before,
        };
        write!(
            f,
            "{what} must be in rising order, but `{word}` doesn't come after `{earlier}` of line {line}{numbers}"
        )
    }
}

/// The numbers of two objects, if they differ; else that a root has an index too.
#[derive(Clone, Copy)]
struct Numbers<'a> {
    here: Ranked<'a>,
    before: Ranked<'a>,
}

impl fmt::Display for Numbers<'_> {
    fn fmt<W: fmt::Write>(&self, f: &mut fmt::Formatter<W>) -> fmt::Result {
        let (one, two) = (self.here, self.before);
        if one.number != two.number {
            let (name, number) = (one.name, one.number);
            write!(f, ": `{name}` is object {number} ")?;
            let (name, number) = (two.name, two.number);
            return write!(f, "and `{name}` is object {number}");
        }
        if one.index == two.index {
            return f.write_str(": a root has index 0");
        }
        Ok(())
    }
}

impl fmt::Display for EdgeFlaw<'_> {
    fn fmt<W: fmt::Write>(&self, f: &mut fmt::Formatter<W>) -> fmt::Result {
        match *self {
            EdgeFlaw::Twice(line) => write!(f, "line {line} has the same edge"),
            EdgeFlaw::Falls(what, here, before, line) => {
                write!(f, "edges must be in rising order, but the {what} ")?;
                write_numbers(f, here, before, line)
            }
        }
    }
}

// The numbers of two words, the second of which is in this line.
fn write_numbers<W: fmt::Write>(
    f: &mut fmt::Formatter<W>,
    here: Numbered<'_>,
    before: Numbered<'_>,
    line: u64,
) -> fmt::Result {
    let (word, number) = (here.word, here.number);
    write!(f, "`{word}` has number {number} ")?;
    let (word, number) = (before.word, before.number);
    write!(f, "and `{word}` of line {line} has number {number}")
}

impl fmt::Display for ClaimFlaw<'_> {
    fn fmt<W: fmt::Write>(&self, f: &mut fmt::Formatter<W>) -> fmt::Result {
        let (before, label, after) = match *self {
            ClaimFlaw::Itself(label) => (
                "a claim needs two different labels, but both are `",
                label,
                "`",
            ),
            ClaimFlaw::Others => {
                return f.write_str("`*` can only stand in a `none`, `take` or `without` line");
            }
            ClaimFlaw::OthersTwice => {
                return f.write_str("`*` can stand for one of the two labels, but not for both");
            }
            ClaimFlaw::Among(label) => (
                "the first label, `",
                label,
                "`, can't be among those that follow",
            ),
            ClaimFlaw::End(label) => (
                "`",
                label,
                "`, one of the first two labels, can't be among those that follow",
            ),
            ClaimFlaw::LabelTwice(label) => ("the label `", label, "` is given twice"),
            ClaimFlaw::Twice(line) => return write!(f, "line {line} has the same claim"),
        };
        write!(f, "{before}{label}{after}")
    }
}

impl fmt::Display for TwiceFlaw<'_> {
    fn fmt<W: fmt::Write>(&self, f: &mut fmt::Formatter<W>) -> fmt::Result {
        let (before, after) = match self.what {
            Twice::Label => ("a label is already called `", "`"),
            Twice::Object => ("an object is already called `", "`"),
            Twice::Control => ("core ", " already has a control"),
            Twice::Untyped => (
                "`",
                "` is untyped memory and already has its one capability",
            ),
            Twice::Bound => ("the context `", "` is already bound"),
        };
        let (word, line) = (self.word, self.line);
        write!(f, "{before}{word}{after}, in line {line}")
    }
}

impl fmt::Display for PlacedFlaw<'_> {
    fn fmt<W: fmt::Write>(&self, f: &mut fmt::Formatter<W>) -> fmt::Result {
        match *self {
            PlacedFlaw::Misaligned(address, size) => write!(
                f,
                "the address {address:#x} isn't a multiple of the size, {size:#x}"
            ),
            PlacedFlaw::Meets(row, range) => {
                let (name, line) = (row.word(1), row.line);
                let (first, last) = (range.first, range.last);
                write!(
                    f,
                    "this object's memory overlaps that of `{name}` in line {line}, "
                )?;
                write!(f, "{first:#x} to {last:#x}")
            }
        }
    }
}

impl fmt::Display for LimitFlaw {
    fn fmt<W: fmt::Write>(&self, f: &mut fmt::Formatter<W>) -> fmt::Result {
        let (what, number, limit) = match *self {
            LimitFlaw::Radix(0) => ("the radix is", 0, "less than 1"),
            LimitFlaw::Radix(radix) => ("the radix is", radix, "more than 12"),
            LimitFlaw::Bits(bits) if bits < 4 => ("the bits are", bits, "less than 4"),
            LimitFlaw::Bits(bits) => ("the bits are", bits, "more than 47"),
            LimitFlaw::Core(core) => ("the core is", core, "more than 15"),
            LimitFlaw::Budget => ("the budget is", 0, "less than 1"),
            LimitFlaw::Period(period) => (
                "the period is",
                period,
                "more than an hour, 3,600,000,000 microseconds",
            ),
            LimitFlaw::Share(budget, period) => {
                return write!(
                    f,
                    "the budget is {budget}, more than the period of {period}"
                );
            }
            LimitFlaw::Slots(slots) => {
                return write!(
                    f,
                    "with this object there are {slots} slots, more than 65,536"
                );
            }
            flaw => return f.write_str(past_limit(flaw)),
        };
        write!(f, "{what} {number}, {limit}")
    }
}

// The limit that is passed, without the number.
fn past_limit(flaw: LimitFlaw) -> &'static str {
    match flaw {
        LimitFlaw::End => "the object ends past 2^48",
        LimitFlaw::Labels => {
            "there are more than 64 labels: a table that begins with `confine-table 2` can have up to 256"
        }
        LimitFlaw::LaterLabels => "there are more than 256 labels",
        LimitFlaw::Objects => "there are more than 4,096 objects",
        LimitFlaw::Threads => "there are more than 1,024 threads",
        LimitFlaw::Events => "there are more than 1,000,000 events",
        _ => "",
    }
}

impl fmt::Display for SlotFlaw<'_> {
    fn fmt<W: fmt::Write>(&self, f: &mut fmt::Formatter<W>) -> fmt::Result {
        match *self {
            SlotFlaw::Index(index, name, slots) => write!(
                f,
                "the index {index} must be below {slots}, the number of slots of `{name}`"
            ),
            SlotFlaw::Bits(bits) => write!(
                f,
                "the guard and the radix have {bits} bits together, more than 64"
            ),
            SlotFlaw::Guard(value, size) => {
                write!(
                    f,
                    "the guard's value {value} doesn't fit into its {size} bits"
                )
            }
        }
    }
}

/// The noun for an object of a form.
pub(crate) fn noun(form: Form) -> &'static str {
    match form {
        Form::Untyped => "untyped memory",
        Form::CNode => "a CNode",
        Form::Tcb => "a thread",
        Form::Endpoint => "an endpoint",
        Form::Notification => "a notification",
        Form::Reply => "a reply",
        Form::Frame => "a frame",
        Form::Context => "a context",
        _ => "a control",
    }
}

// The terms after an object of a form in a capability's line.
fn terms(form: Form) -> &'static str {
    match form {
        Form::CNode => ": write its guard's size and value after its name, such as `62 0x0`",
        Form::Endpoint => ": write its rights and badge after its name, such as `wg 1`",
        Form::Notification => ": write its rights and badge after its name, such as `rw 1`",
        Form::Frame => ": write only rights after its name, such as `rw`",
        _ => ": write nothing after its name",
    }
}

// The slots that an object of a form has.
fn slots(form: Form) -> &'static str {
    match form {
        Form::CNode => "whose slots have an index",
        Form::Tcb => "whose only slot is its root",
        _ => "which has no slots",
    }
}

impl fmt::Display for KindFlaw<'_> {
    fn fmt<W: fmt::Write>(&self, f: &mut fmt::Formatter<W>) -> fmt::Result {
        let (name, form) = (self.name, self.form);
        let noun = noun(form);
        let rest = match self.misfit {
            Misfit::Slot => {
                let slots = slots(form);
                return write!(
                    f,
                    "there is no slot `{name}`: its holder is {noun}, {slots}"
                );
            }
            Misfit::SlotOf => {
                let (words, place) = of_another_line(form);
                return write!(f, "{words}, but `{name}` is {place}");
            }
            Misfit::Root => return write!(f, "a root must be a CNode, but `{name}` is {noun}"),
            Misfit::Terms => terms(form),
            Misfit::Rights => ": it can only have the rights `r` and `w`",
            Misfit::NoThread => ", not a thread",
            Misfit::NoContext => ", not a context",
        };
        write!(f, "`{name}` is {noun}{rest}")
    }
}

// The content of the other line of a certificate, and the slot of a holder of this form.
fn of_another_line(form: Form) -> (&'static str, &'static str) {
    match form {
        Form::CNode => ("a `space` line takes a thread's root", "a CNode's slot"),
        _ => ("a `cap` line takes a CNode's slot", "a thread's root"),
    }
}

impl fmt::Display for TreeFlaw<'_> {
    fn fmt<W: fmt::Write>(&self, f: &mut fmt::Formatter<W>) -> fmt::Result {
        match *self {
            TreeFlaw::Empty(slot) => write!(f, "the slot `{slot}` is empty"),
            TreeFlaw::Objects(parent, child) => {
                write!(
                    f,
                    "the parent is for `{parent}`, but the child is for `{child}`"
                )
            }
            TreeFlaw::Untyped(name) => write!(
                f,
                "`{name}` is untyped memory: its capability can't be a parent or a child"
            ),
            TreeFlaw::Copied(slot, source, line) => write!(
                f,
                "the parent `{slot}` isn't original: it has the same badge as its own parent `{source}` (line {line})"
            ),
            TreeFlaw::Badges(parent, child) => write!(
                f,
                "the parent's badge is {parent}: it must be 0 or the child's badge, {child}"
            ),
            TreeFlaw::Right(right) => {
                write!(
                    f,
                    "the child has the right `{right}`, but the parent doesn't"
                )
            }
        }
    }
}
