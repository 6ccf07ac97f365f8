//! The edges by which a rule of closed policies asks for another.
use base::{Edge, Kind, Label, Labels};
use policy::{Broken, Policy};

/// The edges of a policy by which a rule asks for the edge that is missing: of several ways the first.
pub fn premises(policy: &Policy, broken: Broken) -> [Option<Edge>; 4] {
    match broken {
        Broken::SubjectsDisagree {
            subject,
            other,
            kind,
            target,
        } => {
            let own = there(policy, subject, kind, target);
            let twin = own.or(there(policy, other, kind, target));
            [domain_edge(policy, subject, other), twin, None, None]
        }
        Broken::ControlLacks {
            subject,
            object,
            ..
        } => [
            there(policy, subject, Kind::Control, object),
            None,
            None,
            None,
        ],
        Broken::GrantLacks {
            giver,
            taker,
            kind,
            target,
        } => {
            let [granted, received] = meeting(policy, giver, Kind::Grant, taker);
            [granted, received, there(policy, giver, kind, target), None]
        }
        Broken::DomainLacks { parent, child } => in_one_domain(policy, parent, child),
        Broken::DeriveLacks { parent, child } => derived(policy, parent, child),
        Broken::ContextLacks { subject, context } => {
            [
                there(policy, subject, Kind::Context, context),
                None,
                None,
                None,
            ]
        }
        Broken::ReplyLacks { reply, thread } => held(policy, reply, thread),
        Broken::LentLacks { borrower, context } => lent(policy, borrower, context),
    }
}

/// An edge, if the policy has it.
pub(crate) fn there(policy: &Policy, from: Label, kind: Kind, to: Label) -> Option<Edge> {
    if policy.has(Edge { from, kind, to }) {
        Some(Edge { from, kind, to })
    } else {
        None
    }
}

/// The edge by which a label is in the domain of another.
fn domain_edge(policy: &Policy, subject: Label, other: Label) -> Option<Edge> {
    let space = there(policy, subject, Kind::Space, other);
    space.or(there(policy, subject, Kind::Control, other))
}

/// The edges by which a label uses what another receives from.
fn meeting(policy: &Policy, user: Label, kind: Kind, receiver: Label) -> [Option<Edge>; 2] {
    let used = policy.targets(Labels::only(user), &[kind]);
    let received = policy.targets(Labels::only(receiver), &[Kind::Receive]);
    match used.intersection(received).first() {
        Some(end) => [
            there(policy, user, kind, end),
            there(policy, receiver, Kind::Receive, end),
        ],
        None => [None, None],
    }
}

/// The first label in whose domain two labels are, if there is one.
pub(crate) fn domain_of(policy: &Policy, parent: Label, child: Label) -> Option<Label> {
    let [first, _, _, _] = in_one_domain(policy, parent, child);
    Some(first?.from)
}

/// The edges by which two labels are in one domain.
fn in_one_domain(policy: &Policy, parent: Label, child: Label) -> [Option<Edge>; 4] {
    for subject in Labels::all().iter() {
        let one = domain_edge(policy, subject, parent);
        let other = domain_edge(policy, subject, child);
        if one.is_some() && other.is_some() {
            let second = if parent == child { None } else { other };
            return [one, second, None, None];
        }
    }
    [None; 4]
}

/// The edges by which capabilities are derived in two steps, or over a grant.
fn derived(policy: &Policy, parent: Label, child: Label) -> [Option<Edge>; 4] {
    for between in Labels::all().iter() {
        let first = there(policy, parent, Kind::Derive, between);
        let second = there(policy, between, Kind::Derive, child);
        if first.is_some() && second.is_some() {
            return [first, second, None, None];
        }
    }
    for giver in Labels::all().iter() {
        let given = domain_edge(policy, giver, parent);
        let [granted, received, kept] = granted_into(policy, giver, child);
        if given.is_some() && granted.is_some() {
            return [granted, received, given, kept];
        }
    }
    [None; 4]
}

/// The edges by which a label grants capabilities to one in whose domain a label is.
fn granted_into(policy: &Policy, giver: Label, child: Label) -> [Option<Edge>; 3] {
    for taker in Labels::all().iter() {
        let [granted, received] = meeting(policy, giver, Kind::Grant, taker);
        let kept = domain_edge(policy, taker, child);
        if granted.is_some() && kept.is_some() {
            return [granted, received, kept];
        }
    }
    [None; 3]
}

/// The edges by which a reply comes to hold a thread of a label, which receives with it or calls who does.
fn held(policy: &Policy, reply: Label, thread: Label) -> [Option<Edge>; 4] {
    let own = there(policy, thread, Kind::Reply, reply);
    if own.is_some() {
        return [own, None, None, None];
    }
    for receiver in Labels::all().iter() {
        let answered = there(policy, receiver, Kind::Reply, reply);
        let [called, received] = meeting(policy, thread, Kind::Call, receiver);
        if answered.is_some() && called.is_some() {
            return [answered, called, received, None];
        }
    }
    [None; 4]
}

/// The edges by which a label is lent a context, by who runs on it and calls where the label receives.
fn lent(policy: &Policy, borrower: Label, context: Label) -> [Option<Edge>; 4] {
    for caller in Labels::all().iter() {
        let ran = there(policy, caller, Kind::Runs, context);
        let [called, received] = meeting(policy, caller, Kind::Call, borrower);
        if ran.is_some() && called.is_some() {
            return [called, received, ran, None];
        }
    }
    [None; 4]
}
