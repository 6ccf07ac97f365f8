//! Rules of closed policies that a policy breaks: the first of them, and where.
pub(crate) mod cells;
pub(crate) mod rules;
pub(crate) mod steps;

ghost use Rattle.std.specs.Prelude.{[], ◌%◌, ◌*◌, ◌/◌, ◌<◌, ◌∷◌, ◌≡◌, ◌≤◌, IsTrue};
ghost use Rattle.base.specs.declared.label.TheConstants.Label as Label;
ghost use Rattle.policy.specs.{Broken.{IsBrokenAt, broken_place, broken_rule, edge_asked_at}, Places.FindsLeast};
ghost use Rattle.policy.specs.{Policy.allows, Search.FindsBroken, Sweep.{count_of, place_of, rule_number}};

use crate::Policy;
use base::{Edge, Kind, Label};
use rayon::prelude::*;
use rules::{
    context_lacks, control_lacks, derive_lacks, domain_lacks, grant_lacks, lent_lacks, reply_lacks,
    subjects_disagree,
};
use std::thread::Threads;

/// A rule of closed policies that a policy breaks, and where.
///
/// They are ordered by rule, and then by the labels and kinds that they name, from left to right.
#[derive(Clone, Copy)]
pub enum Broken {
    /// P1: `other` is in the domain of `subject`, and only one of the two has the edge of this kind to
    /// `target`.
    SubjectsDisagree {
        subject: Label,
        other: Label,
        kind: Kind,
        target: Label,
    },
    /// P2: `subject` controls `object`, and lacks the edge of this kind to it.
    ControlLacks {
        subject: Label,
        kind: Kind,
        object: Label,
    },
    /// P3: `giver` may grant its capabilities to `taker`, which lacks the giver's edge of this kind to
    /// `target`.
    GrantLacks {
        giver: Label,
        taker: Label,
        kind: Kind,
        target: Label,
    },
    /// P4: `parent` and `child` are in one domain, and the edge of kind derive is missing.
    DomainLacks {
        parent: Label,
        child: Label,
    },
    /// P5: capabilities of `child` may come to be derived from those of `parent`, by a grant or in two
    /// steps, and the edge of kind derive is missing.
    DeriveLacks {
        parent: Label,
        child: Label,
    },
    /// P6: `subject` may bind a scheduling context of the label `context`, and the edge of kind runs is
    /// missing.
    ContextLacks {
        subject: Label,
        context: Label,
    },
    /// P7: a reply object of the label `reply` may come to hold a thread of the label `thread`, and the
    /// edge of kind holds is missing.
    ReplyLacks {
        reply: Label,
        thread: Label,
    },
    /// P8: `borrower` may be lent a scheduling context of the label `context`, by a Call, and the edge of
    /// kind runs is missing.
    LentLacks {
        borrower: Label,
        context: Label,
    },
}

impl Broken {
    /// Returns the name of the rule that is broken.
    pub fn rule(&self) -> &'static str
        ensures { result.now ≡ broken_rule self.now }
    {
        match self {
            Broken::SubjectsDisagree { .. } => "P1",
            Broken::ControlLacks { .. } => "P2",
            Broken::GrantLacks { .. } => "P3",
            Broken::DomainLacks { .. } => "P4",
            Broken::DeriveLacks { .. } => "P5",
            Broken::ContextLacks { .. } => "P6",
            Broken::ReplyLacks { .. } => "P7",
            Broken::LentLacks { .. } => "P8",
        }
    }

    /// Returns the edge that the rule requires and the policy lacks.
    ///
    /// There is none by P1, which doesn't say which of two labels lacks it.
    pub fn edge(&self) -> Option<Edge>
        ensures { result ≡ edge_asked_at self.now }
    {
        let (from, kind, to) = match *self {
            Broken::SubjectsDisagree { .. } => return None,
            Broken::ControlLacks {
                subject,
                kind,
                object,
            } => (subject, kind, object),
            Broken::GrantLacks {
                taker,
                kind,
                target,
                ..
            } => (taker, kind, target),
            Broken::DomainLacks { parent, child } | Broken::DeriveLacks { parent, child } => {
                (parent, Kind::Derive, child)
            }
            Broken::ContextLacks { subject, context } => (subject, Kind::Runs, context),
            Broken::ReplyLacks { reply, thread } => (reply, Kind::Holds, thread),
            Broken::LentLacks { borrower, context } => (borrower, Kind::Runs, context),
        };
        Some(Edge { from, kind, to })
    }
}

#[derive(Clone, Copy)]
enum Rule {
    P1,
    P2,
    P3,
    P4,
    P5,
    P6,
    P7,
    P8,
}

impl Rule {
    const ALL: [Rule; 8] = [
        Rule::P1,
        Rule::P2,
        Rule::P3,
        Rule::P4,
        Rule::P5,
        Rule::P6,
        Rule::P7,
        Rule::P8,
    ];

    // The number of places of a rule between this many labels: pairs of labels, or labels.
    fn places(self, labels: usize) -> usize
        requires { labels ≤ Label.COUNT }
        ensures { result ≡ count_of labels self }
    {
        match self {
            Rule::P1 | Rule::P3 => labels * labels,
            _ => labels,
        }
    }

    // The first broken place at a pair of labels, or at a label.
    fn broken_at(self, policy: &Policy, labels: usize, number: usize) -> Option<Broken>
        requires few { labels ≤ Label.COUNT }
        requires within { number < count_of labels self }
        ensures { FindsBroken (allows policy.now) (rule_number self ∷ place_of labels self number) result }
    {
        match self {
            Rule::P1 => {
                let (subject, other) = pair(labels, number);
                subjects_disagree(policy, subject, other)
            }
            Rule::P2 => control_lacks(policy, label(number)),
            Rule::P3 => {
                let (giver, taker) = pair(labels, number);
                grant_lacks(policy, giver, taker)
            }
            Rule::P4 => domain_lacks(policy, label(number)),
            Rule::P5 => derive_lacks(policy, label(number)),
            Rule::P6 => context_lacks(policy, label(number)),
            Rule::P7 => reply_lacks(policy, label(number)),
            Rule::P8 => lent_lacks(policy, label(number)),
        }
    }

    // The first place where the rule is broken. Places are looked at in parallel.
    fn first_broken(self, rt: &(impl Threads + Sync), policy: &Policy) -> Option<Broken>
        ensures { FindsBroken (allows policy.now) (rule_number self ∷ []) result }
    {
        let labels = usize::from(policy.span());
        (0..self.places(labels))
            .into_par_iter()
            .with_min_len(AT_ONCE)
            .filter_map(
                |number: usize| -> Option<Broken>
                    requires { (labels ≤ Label.COUNT) × (number < count_of labels self) }
                    ensures { FindsBroken (allows policy.entry.now)
                        (rule_number self ∷ place_of labels self number) result }
                { self.broken_at(policy, labels, number) },
            )
            .find_first(
                rt,
                |_broken: &Broken| -> bool
                    ensures { IsTrue result }
                { true },
            )
    }
}

// The least number of places that one thread looks at: fewer take less time than a thread's start.
const AT_ONCE: usize = 2048;

// The label of this number.
fn label(number: usize) -> Label
    requires { number < Label.COUNT }
    ensures { result ≡ number }
{
    Label::new(number as u16).unwrap()
}

// The pair of labels with this number, in the order of the pairs of this many labels.
fn pair(labels: usize, number: usize) -> (Label, Label)
    requires few { labels ≤ Label.COUNT }
    requires within { number < labels * labels }
    ensures first { result.0 ≡ number / labels }
    ensures second { result.1 ≡ number % labels }
{
    (label(number / labels), label(number % labels))
}

/// Returns the first rule of closed policies that a policy breaks, and the first place where it does so.
///
/// Pairs of labels are looked at in parallel. The call takes no memory.
pub fn first_broken(rt: &(impl Threads + Sync), policy: &Policy) -> Option<Broken>
    ensures { FindsLeast broken_place (IsBrokenAt (allows policy.now)) result }
{
    policy.edges_rise();
    for rule in Rule::ALL {
        if let Some(broken) = rule.first_broken(rt, policy) {
            return Some(broken);
        }
    }
    None
}
