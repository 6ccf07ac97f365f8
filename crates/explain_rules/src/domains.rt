//! The sentences on denials by P1 and P4: in whose domain labels are, and which edges put them there.
use crate::closed_rules::{domain_of, there};
use crate::sentences::{EdgeAfter, Reason};
use base::{Edge, Kind, Label};
use captext::label_name;
use policy::{Broken, Policy};
use std::fmt::{self, Display};
use table::Table;
use verdict::Denial;

/// Why a rule is broken, where the policy shows in whose domain labels are.
#[derive(Clone, Copy)]
pub struct ReasonIn<'a> {
    pub table: &'a Table,
    pub policy: &'a Policy,
    pub denial: &'a Denial,
}

impl fmt::Display for ReasonIn<'_> {
    fn fmt<W: fmt::Write>(&self, f: &mut fmt::Formatter<W>) -> fmt::Result {
        let (table, denial) = (self.table, self.denial);
        if let Denial::Policy(Broken::DomainLacks { parent, child }) = *denial {
            if let Some(subject) = domain_of(self.policy, parent, child) {
                return tell_domain(f, table, subject, parent, child);
            }
        }
        Reason { table, denial }.fmt(f)
    }
}

/// In whose domain two labels are, which may be the same, and what P4 assumes of that.
fn tell_domain<W: fmt::Write>(
    f: &mut fmt::Formatter<W>,
    table: &Table,
    subject: Label,
    parent: Label,
    child: Label,
) -> fmt::Result {
    let name = label_name(table, subject);
    let (one, two) = (label_name(table, parent), label_name(table, child));
    if parent != child {
        return write!(
            f,
            "`{one}` and `{two}` are in the domain of `{name}`, and P4 assumes that `{name}` may copy capabilities of \
             `{one}` into `{two}`"
        );
    }
    if subject == parent {
        write!(f, "`{one}` is in its own domain")?;
    } else {
        write!(f, "`{one}` is in the domain of `{name}`")?;
    }
    write!(
        f,
        ", and P4 assumes that `{name}` may copy capabilities of `{one}` within `{one}`"
    )
}

/// What mends a policy where two labels of a domain disagree: that the one edge or the domain goes. If the one edge
/// makes the domain too, it is named once.
pub(crate) fn tell_domain_way<W: fmt::Write>(
    f: &mut fmt::Formatter<W>,
    table: &Table,
    policy: &Policy,
    subject: Label,
    other: Label,
    twin: Option<Edge>,
) -> fmt::Result {
    let control = there(policy, subject, Kind::Control, other);
    let removed = EdgeAfter {
        words: "Remove ",
        table,
        edge: twin,
    };
    if control.is_some() && control == twin {
        return removed.fmt(f);
    }
    let edges = DomainEdges {
        table,
        policy,
        subject,
        other,
    };
    let name = label_name(table, other);
    write!(
        f,
        "{removed}, or remove what puts `{name}` into that domain ({edges})"
    )
}

/// The edges that put a label into the domain of another.
#[derive(Clone, Copy)]
struct DomainEdges<'a> {
    table: &'a Table,
    policy: &'a Policy,
    subject: Label,
    other: Label,
}

impl fmt::Display for DomainEdges<'_> {
    fn fmt<W: fmt::Write>(&self, f: &mut fmt::Formatter<W>) -> fmt::Result {
        let (table, policy) = (self.table, self.policy);
        let space = there(policy, self.subject, Kind::Space, self.other);
        let words = if space.is_some() { " and " } else { "" };
        let control = EdgeAfter {
            words,
            table,
            edge: there(policy, self.subject, Kind::Control, self.other),
        };
        let space = EdgeAfter {
            words: "",
            table,
            edge: space,
        };
        write!(f, "{space}{control}")
    }
}

/// What mends a policy where the labels of a domain can't derive: that one of them leaves the domain.
pub(crate) fn tell_domain_exit<W: fmt::Write>(
    f: &mut fmt::Formatter<W>,
    table: &Table,
    policy: &Policy,
    subject: Label,
    parent: Label,
    child: Label,
) -> fmt::Result {
    let name = label_name(table, parent);
    let edges = DomainEdges {
        table,
        policy,
        subject,
        other: parent,
    };
    write!(f, "Remove what puts `{name}` ")?;
    if parent == child {
        return write!(f, "into that domain ({edges})");
    }
    let other = label_name(table, child);
    let others = DomainEdges {
        table,
        policy,
        subject,
        other: child,
    };
    write!(f, "({edges}) or `{other}` ({others}) into that domain")
}
