//! The first sharp rule that a policy breaks, and where it is broken.
mod rules;

ghost use Rattle.std.specs.Prelude.{[], ◌<◌, ◌↔◌, ◌∷◌, ◌≡◌, IsTrue};
ghost use Rattle.{base.specs.Labels.is_in, policy.specs.{Places.FindsLeast, Policy.allows, Sharp.{IsSharplyClosed, Told}}};
ghost use Rattle.sharp.specs.{Broken.{FindsSharply, IsSharplyBrokenAt, sharp_edge_at, sharp_place, sharp_rule}, Sweep.rule_number};
ghost use Rattle.base.specs.declared.label.TheConstants.Label as Label;

use base::{Edge, Kind, Label, Labels};
use policy::Policy;
use rules::{
    context_lacks, control_lacks, derive_lacks, domain_lacks, grant_lacks, lent_lacks, reply_lacks,
    subject_lacks,
};

/// A sharp rule that a policy breaks, and where, given which labels keep capabilities for CNodes.
///
/// Each names the edge that is missing. They are ordered by rule, and then by what they name, from
/// left to right.
#[derive(Clone, Copy)]
pub enum SharpBroken {
    /// S1: `subject` lacks the edge of this kind to `target` that `other` has. Either `other` is in the
    /// domain of `subject`, or `other` keeps and controls `subject`.
    SubjectLacks {
        subject: Label,
        other: Label,
        kind: Kind,
        target: Label,
    },
    /// S2: `subject` keeps, controls `object`, and lacks the edge of this kind to it.
    ControlLacks {
        subject: Label,
        kind: Kind,
        object: Label,
    },
    /// S3: `giver` may grant its capabilities to `taker`, which keeps and lacks the giver's edge of this
    /// kind to `target`.
    GrantLacks {
        giver: Label,
        taker: Label,
        kind: Kind,
        target: Label,
    },
    /// S4: some label keeps, has `parent` in its domain and controls `child`, and the edge of kind derive
    /// is missing.
    DomainLacks {
        parent: Label,
        child: Label,
    },
    /// S5: a label that keeps and controls `child` may be granted capabilities by a label that has `parent`
    /// in its domain, or two edges of kind derive lead from `parent` to `child`. The edge of kind derive is
    /// missing.
    DeriveLacks {
        parent: Label,
        child: Label,
    },
    /// S6: some label may bind a thread of `subject` to a scheduling context of the label `context`, and
    /// the edge of kind runs is missing.
    ContextLacks {
        subject: Label,
        context: Label,
    },
    /// S7: `thread` may receive with a reply object of the label `reply`, or may call where a label receives
    /// that may do so, and the edge of kind holds is missing.
    ReplyLacks {
        reply: Label,
        thread: Label,
    },
    /// S8: `borrower` may be lent a scheduling context of the label `context` while it waits without one,
    /// and the edge of kind runs is missing.
    LentLacks {
        borrower: Label,
        context: Label,
    },
}

impl SharpBroken {
    /// Returns the name of the rule that is broken.
    pub fn rule(&self) -> &'static str
        ensures { result.now ≡ sharp_rule self.now }
    {
        match self {
            SharpBroken::SubjectLacks { .. } => "S1",
            SharpBroken::ControlLacks { .. } => "S2",
            SharpBroken::GrantLacks { .. } => "S3",
            SharpBroken::DomainLacks { .. } => "S4",
            SharpBroken::DeriveLacks { .. } => "S5",
            SharpBroken::ContextLacks { .. } => "S6",
            SharpBroken::ReplyLacks { .. } => "S7",
            SharpBroken::LentLacks { .. } => "S8",
        }
    }

    /// Returns the edge that the rule requires and the policy lacks.
    pub fn edge(&self) -> Edge
        ensures { result ≡ sharp_edge_at self.now }
    {
        let (from, kind, to) = match *self {
            SharpBroken::SubjectLacks {
                subject,
                kind,
                target,
                ..
            } => (subject, kind, target),
            SharpBroken::ControlLacks {
                subject,
                kind,
                object,
            } => (subject, kind, object),
            SharpBroken::GrantLacks {
                taker,
                kind,
                target,
                ..
            } => (taker, kind, target),
            SharpBroken::DomainLacks { parent, child }
            | SharpBroken::DeriveLacks { parent, child } => (parent, Kind::Derive, child),
            SharpBroken::ContextLacks { subject, context } => (subject, Kind::Runs, context),
            SharpBroken::ReplyLacks { reply, thread } => (reply, Kind::Holds, thread),
            SharpBroken::LentLacks { borrower, context } => (borrower, Kind::Runs, context),
        };
        Edge { from, kind, to }
    }
}

// A sharp rule, as in [`SharpBroken`].
#[derive(Clone, Copy)]
enum Rule {
    S1,
    S2,
    S3,
    S4,
    S5,
    S6,
    S7,
    S8,
}

impl Rule {
    const ALL: [Rule; 8] = [
        Rule::S1,
        Rule::S2,
        Rule::S3,
        Rule::S4,
        Rule::S5,
        Rule::S6,
        Rule::S7,
        Rule::S8,
    ];

    // The first broken place at a label.
    fn broken_at(self, policy: &Policy, keeping: Labels, label: Label) -> Option<SharpBroken>
        ensures { FindsSharply (allows policy.now) (Told (is_in keeping)) (rule_number self ∷ label ∷ []) result }
    {
        match self {
            Rule::S1 => subject_lacks(policy, keeping, label),
            Rule::S2 => control_lacks(policy, keeping, label),
            Rule::S3 => grant_lacks(policy, keeping, label),
            Rule::S4 => domain_lacks(policy, keeping, label),
            Rule::S5 => derive_lacks(policy, keeping, label),
            Rule::S6 => context_lacks(policy, label),
            Rule::S7 => reply_lacks(policy, label),
            Rule::S8 => lent_lacks(policy, label),
        }
    }

    // The first place where the rule is broken.
    fn first_broken(self, policy: &Policy, keeping: Labels) -> Option<SharpBroken>
        ensures { FindsSharply (allows policy.now) (Told (is_in keeping)) (rule_number self ∷ []) result }
    {
        for number in 0..policy.span() {
            if let Some(broken) = self.broken_at(policy, keeping, label(number)) {
                return Some(broken);
            }
        }
        None
    }
}

// The label of this number.
fn label(number: u16) -> Label
    requires { number < Label.COUNT }
    ensures { result ≡ number }
{
    Label::new(number).unwrap()
}

/// Returns the first sharp rule that a policy breaks, and the first place where it does, if these
/// labels keep capabilities for CNodes.
///
/// The call takes no memory.
pub fn first_broken(policy: &Policy, keeping: Labels) -> Option<SharpBroken>
    ensures { FindsLeast sharp_place (IsSharplyBrokenAt (allows policy.now) (Told (is_in keeping))) result }
{
    for rule in Rule::ALL {
        if let Some(broken) = rule.first_broken(policy, keeping) {
            return Some(broken);
        }
    }
    None
}

/// Returns whether a policy is sharply closed, if these labels keep capabilities for CNodes.
pub fn is_sharply_closed(policy: &Policy, keeping: Labels) -> bool
    ensures { IsTrue result ↔ IsSharplyClosed (allows policy.now) (Told (is_in keeping)) }
{
    first_broken(policy, keeping).is_none()
}
