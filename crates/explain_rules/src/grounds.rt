//! The grounds on which the sharp rules require an edge.
use base::{Edge, Kind, Label, Labels};
use captext::label_name;
use policy::{DOMAIN, Policy, is_given_by_control, subjects};
use reach::node_holders;
use sharp::{SharpBroken, keepers};
use std::fmt;
use table::Table;

/// Edges, with what the sharp rules need to know of them and of a table.
#[derive(Clone, Copy)]
pub struct View<'a> {
    pub policy: &'a Policy,
    /// The labels that keep a capability for a CNode.
    pub keepers: Labels,
    /// The labels of which a thread may wait without a context.
    pub idlers: Labels,
}

impl<'a> View<'a> {
    /// Returns what the rules need to know of the edges of a policy, where the table is this one.
    pub fn of(table: &Table, policy: &'a Policy) -> View<'a> {
        View {
            policy,
            keepers: keepers(policy, node_holders(table)),
            idlers: policy.idlers(),
        }
    }
}

/// On which grounds a sharp rule requires an edge: other edges, and how it comes from these.
#[derive(Clone, Copy)]
pub struct Grounds {
    pub edges: [Option<Edge>; 4],
    pub way: Way,
}

/// How an edge comes from others by a sharp rule.
#[derive(Clone, Copy)]
pub enum Way {
    /// The first label finds capabilities in CNodes of the second.
    Finds(Label, Label),
    /// The first label controls the second.
    Controls(Label, Label),
    /// The first label keeps, and controls the second, so that it may fill its CNodes.
    Fills(Label, Label),
    /// The first label keeps, and controls the second, so that it may do everything to it.
    Keeps(Label, Label),
    /// The first label may grant to the second, which keeps.
    Grants(Label, Label),
    /// The first label keeps, and copies capabilities of the second to the third.
    Copies(Label, Label, Label),
    /// The first label grants capabilities of the second to the third, which keeps and controls the fourth.
    Passes(Label, Label, Label, Label),
    /// In two steps of derivation.
    Steps,
    /// The first label controls the second, and binds its threads to contexts of the third.
    Binds(Label, Label, Label),
    /// The first label receives with a reply object of the second.
    Receives(Label, Label),
    /// The first label calls where the second receives with a reply object of the third.
    Calls(Label, Label, Label),
    /// The first label calls the second, which may wait without a context.
    Lends(Label, Label),
}

impl Way {
    /// Returns the label of which the rule requires that it keeps a capability for a CNode.
    pub fn keeper(self) -> Option<Label> {
        match self {
            Way::Fills(label, _) | Way::Keeps(label, _) | Way::Grants(_, label) => Some(label),
            Way::Copies(label, _, _) | Way::Passes(_, _, label, _) => Some(label),
            _ => None,
        }
    }

    /// Returns the name of the rule.
    pub fn rule(self) -> &'static str {
        match self {
            Way::Finds(_, _) | Way::Controls(_, _) | Way::Fills(_, _) => "S1",
            Way::Keeps(_, _) => "S2",
            Way::Grants(_, _) => "S3",
            Way::Copies(_, _, _) => "S4",
            Way::Passes(_, _, _, _) | Way::Steps => "S5",
            Way::Binds(_, _, _) => "S6",
            Way::Receives(_, _) | Way::Calls(_, _, _) => "S7",
            Way::Lends(_, _) => "S8",
        }
    }
}

/// How an edge comes from others, as the end of a sentence that names them.
#[derive(Clone, Copy)]
pub struct WayWords<'a> {
    pub table: &'a Table,
    pub way: Way,
}

impl fmt::Display for WayWords<'_> {
    fn fmt<W: fmt::Write>(&self, f: &mut fmt::Formatter<W>) -> fmt::Result {
        let table = self.table;
        match self.way {
            Way::Finds(one, two) => tell_two(
                f,
                table,
                "`",
                one,
                "` finds capabilities in CNodes of `",
                two,
                "`",
            ),
            Way::Controls(one, two) => tell_two(f, table, "`", one, "` controls `", two, "`"),
            Way::Fills(one, two) | Way::Keeps(one, two) => {
                let words = "` keeps a capability for a CNode and controls `";
                tell_two(f, table, "`", one, words, two, "`")
            }
            Way::Grants(giver, taker) => tell_granted(f, table, giver, taker),
            Way::Copies(by, parent, child) => tell_copied(f, table, by, parent, child),
            Way::Passes(giver, parent, taker, child) => {
                tell_passed(f, table, giver, parent, taker, child)
            }
            Way::Steps => f.write_str("capabilities are derived in two steps"),
            Way::Binds(by, subject, context) => tell_bound(f, table, by, subject, context),
            Way::Receives(server, reply) => {
                let words = "` may receive with a reply object of `";
                tell_two(f, table, "`", server, words, reply, "`")
            }
            Way::Calls(caller, server, reply) => tell_called(f, table, caller, server, reply),
            Way::Lends(caller, server) => {
                let words = "` may call `";
                tell_two(
                    f,
                    table,
                    "`",
                    caller,
                    words,
                    server,
                    "`, which may wait without a context",
                )
            }
        }
    }
}

/// Words with the names of two labels between them.
fn tell_two<W: fmt::Write>(
    f: &mut fmt::Formatter<W>,
    table: &Table,
    before: &str,
    one: Label,
    between: &str,
    two: Label,
    after: &str,
) -> fmt::Result {
    let (one, two) = (label_name(table, one), label_name(table, two));
    write!(f, "{before}{one}{between}{two}{after}")
}

/// That a label may grant to one that keeps.
fn tell_granted<W: fmt::Write>(
    f: &mut fmt::Formatter<W>,
    table: &Table,
    giver: Label,
    taker: Label,
) -> fmt::Result {
    let (giver, taker) = (label_name(table, giver), label_name(table, taker));
    write!(
        f,
        "`{giver}` may grant to `{taker}`, and `{taker}` keeps a capability for a CNode"
    )
}

/// That a label that keeps may copy capabilities of one label to another.
fn tell_copied<W: fmt::Write>(
    f: &mut fmt::Formatter<W>,
    table: &Table,
    by: Label,
    parent: Label,
    child: Label,
) -> fmt::Result {
    let by = label_name(table, by);
    let (parent, child) = (label_name(table, parent), label_name(table, child));
    write!(
        f,
        "`{by}` keeps a capability for a CNode, and may copy capabilities of `{parent}` to `{child}`"
    )
}

/// That a label may grant capabilities to one that keeps, and that may put them into the CNodes of a label.
fn tell_passed<W: fmt::Write>(
    f: &mut fmt::Formatter<W>,
    table: &Table,
    giver: Label,
    parent: Label,
    taker: Label,
    child: Label,
) -> fmt::Result {
    let (giver, parent) = (label_name(table, giver), label_name(table, parent));
    let (taker, child) = (label_name(table, taker), label_name(table, child));
    write!(
        f,
        "`{giver}` may grant capabilities of `{parent}` to `{taker}`, and `{taker}` keeps a capability for a CNode \
         and controls `{child}`"
    )
}

/// That a label may bind threads to contexts.
fn tell_bound<W: fmt::Write>(
    f: &mut fmt::Formatter<W>,
    table: &Table,
    by: Label,
    subject: Label,
    context: Label,
) -> fmt::Result {
    let by = label_name(table, by);
    let (subject, context) = (label_name(table, subject), label_name(table, context));
    write!(
        f,
        "`{by}` may bind threads of `{subject}` to contexts of `{context}`"
    )
}

/// That a label may call where another receives with a reply object.
fn tell_called<W: fmt::Write>(
    f: &mut fmt::Formatter<W>,
    table: &Table,
    caller: Label,
    server: Label,
    reply: Label,
) -> fmt::Result {
    let caller = label_name(table, caller);
    let (server, reply) = (label_name(table, server), label_name(table, reply));
    write!(
        f,
        "`{caller}` may call where `{server}` receives with a reply object of `{reply}`"
    )
}

/// The first sharp rule that requires an edge by these, and the first of its grounds.
pub fn first_grounds(view: &View<'_>, edge: Edge) -> Option<Grounds> {
    if !edge.kind.is_structural() {
        return grounds_of_use(view, &edge);
    }
    match edge.kind {
        Kind::Space => controlled(view, &edge),
        Kind::Derive => {
            match copied(view, edge.from, edge.to) {
                Some(grounds) => Some(grounds),
                None => derived(view, edge.from, edge.to),
            }
        }
        Kind::Runs => {
            match bound(view, edge.from, edge.to) {
                Some(grounds) => Some(grounds),
                None => lent(view, edge.from, edge.to),
            }
        }
        _ => held(view, edge.from, edge.to),
    }
}

/// The first such grounds for an edge of use.
fn grounds_of_use(view: &View<'_>, edge: &Edge) -> Option<Grounds> {
    if let Some(grounds) = shared(view, edge, Labels::all()) {
        return Some(grounds);
    }
    match controlled(view, edge) {
        Some(grounds) => Some(grounds),
        None => granted(view, edge, Labels::all()),
    }
}

/// The first edge by which a sharp rule requires the edge that is missing at a place.
pub fn first_premise(table: &Table, policy: &Policy, broken: &SharpBroken) -> Option<Edge> {
    match grounds_at(&View::of(table, policy), broken) {
        Some(grounds) => grounds.edges[0],
        None => None,
    }
}

/// The grounds on which a sharp rule requires the edge that is missing at a place.
pub fn grounds_at(view: &View<'_>, broken: &SharpBroken) -> Option<Grounds> {
    let edge = broken.edge();
    match *broken {
        SharpBroken::SubjectLacks { other, .. } => shared(view, &edge, Labels::only(other)),
        SharpBroken::ControlLacks { .. } => controlled(view, &edge),
        SharpBroken::GrantLacks { giver, .. } => granted(view, &edge, Labels::only(giver)),
        SharpBroken::DomainLacks { parent, child } => copied(view, parent, child),
        SharpBroken::DeriveLacks { parent, child } => derived(view, parent, child),
        SharpBroken::ContextLacks { subject, context } => bound(view, subject, context),
        SharpBroken::ReplyLacks { reply, thread } => held(view, reply, thread),
        SharpBroken::LentLacks { borrower, context } => lent(view, borrower, context),
    }
}

/// An edge, for a list of premises.
fn edge(from: Label, kind: Kind, to: Label) -> Option<Edge> {
    Some(Edge { from, kind, to })
}

/// The labels that have an edge of this kind to a label.
fn having(view: &View<'_>, kind: Kind, to: Label) -> Labels {
    view.policy.sources(Labels::only(to), &[kind])
}

/// The edge by which a label is in the domain of another.
fn domain_edge(view: &View<'_>, subject: Label, other: Label) -> Option<Edge> {
    let kind = if view.policy.row(subject, Kind::Space).has(other) {
        Kind::Space
    } else {
        Kind::Control
    };
    edge(subject, kind, other)
}

/// S1: of one of these labels, which is in the domain of the label, or keeps and controls it.
fn shared(view: &View<'_>, wanted: &Edge, among: Labels) -> Option<Grounds> {
    let Edge { from, kind, to } = *wanted;
    let others = having(view, kind, to).intersection(among);
    let found = view.policy.row_of_kinds(from, &DOMAIN);
    if let Some(other) = others.intersection(found).first() {
        let way = if view.policy.row(from, Kind::Space).has(other) {
            Way::Finds(from, other)
        } else {
            Way::Controls(from, other)
        };
        let edges = [
            domain_edge(view, from, other),
            edge(other, kind, to),
            None,
            None,
        ];
        return Some(Grounds { edges, way });
    }
    let putting = having(view, Kind::Control, from).intersection(view.keepers);
    let other = others.intersection(putting).first()?;
    let put = edge(other, Kind::Control, from);
    let used = edge(other, kind, to);
    let used = if put == used { None } else { used };
    Some(Grounds {
        edges: [put, used, None, None],
        way: Way::Fills(other, from),
    })
}

/// S2: by control of a label that keeps.
fn controlled(view: &View<'_>, wanted: &Edge) -> Option<Grounds> {
    let Edge { from, kind, to } = *wanted;
    if !is_given_by_control(kind)
        || !view.keepers.has(from)
        || !view.policy.row(from, Kind::Control).has(to)
    {
        return None;
    }
    Some(Grounds {
        edges: [edge(from, Kind::Control, to), None, None, None],
        way: Way::Keeps(from, to),
    })
}

/// S3: by a grant of one of these labels to a label that keeps.
fn granted(view: &View<'_>, wanted: &Edge, among: Labels) -> Option<Grounds> {
    let Edge { from, kind, to } = *wanted;
    if !view.keepers.has(from) {
        return None;
    }
    let receiving = view.policy.row(from, Kind::Receive);
    let granting = view.policy.sources(receiving, &[Kind::Grant]);
    let givers = granting
        .intersection(having(view, kind, to))
        .intersection(among);
    let giver = givers.first()?;
    let met = receiving.intersection(view.policy.row(giver, Kind::Grant));
    let endpoint = met.first()?;
    Some(Grounds {
        edges: [
            edge(giver, Kind::Grant, endpoint),
            edge(from, Kind::Receive, endpoint),
            edge(giver, kind, to),
            None,
        ],
        way: Way::Grants(giver, from),
    })
}

/// S4: by a label that keeps, finds capabilities in the one label, and controls the other.
fn copied(view: &View<'_>, parent: Label, child: Label) -> Option<Grounds> {
    let finding = subjects(view.policy, parent).intersection(view.keepers);
    let by = finding
        .intersection(having(view, Kind::Control, child))
        .first()?;
    let found = domain_edge(view, by, parent);
    let put = edge(by, Kind::Control, child);
    let put = if found == put { None } else { put };
    Some(Grounds {
        edges: [found, put, None, None],
        way: Way::Copies(by, parent, child),
    })
}

/// S5: in two steps, or by a grant.
fn derived(view: &View<'_>, parent: Label, child: Label) -> Option<Grounds> {
    let further = view.policy.row(parent, Kind::Derive);
    match further
        .intersection(having(view, Kind::Derive, child))
        .first()
    {
        Some(between) => Some(Grounds {
            edges: [
                edge(parent, Kind::Derive, between),
                edge(between, Kind::Derive, child),
                None,
                None,
            ],
            way: Way::Steps,
        }),
        None => passed(view, parent, child),
    }
}

/// S5: by a grant to a label that keeps and controls the label `child`.
fn passed(view: &View<'_>, parent: Label, child: Label) -> Option<Grounds> {
    let policy = view.policy;
    let givers = subjects(policy, parent);
    let endpoints = policy.targets(givers, &[Kind::Grant]);
    let putting = having(view, Kind::Control, child).intersection(view.keepers);
    let taker = policy
        .sources(endpoints, &[Kind::Receive])
        .intersection(putting)
        .first()?;
    let receiving = policy.row(taker, Kind::Receive);
    let giver = policy
        .sources(receiving, &[Kind::Grant])
        .intersection(givers)
        .first()?;
    let met = receiving.intersection(policy.row(giver, Kind::Grant));
    let endpoint = met.first()?;
    Some(Grounds {
        edges: [
            edge(giver, Kind::Grant, endpoint),
            edge(taker, Kind::Receive, endpoint),
            domain_edge(view, giver, parent),
            edge(taker, Kind::Control, child),
        ],
        way: Way::Passes(giver, parent, taker, child),
    })
}

/// S6: by a label that may bind the context, and controls the label `subject`.
fn bound(view: &View<'_>, subject: Label, context: Label) -> Option<Grounds> {
    let binding = having(view, Kind::Context, context);
    let by = binding
        .intersection(having(view, Kind::Control, subject))
        .first()?;
    Some(Grounds {
        edges: [
            edge(by, Kind::Context, context),
            edge(by, Kind::Control, subject),
            None,
            None,
        ],
        way: Way::Binds(by, subject, context),
    })
}

/// S7: a thread receives with the reply, or calls who does.
fn held(view: &View<'_>, reply: Label, thread: Label) -> Option<Grounds> {
    let policy = view.policy;
    let servers = having(view, Kind::Reply, reply);
    if servers.has(thread) {
        if let Some(endpoint) = policy.row(thread, Kind::Receive).first() {
            return Some(Grounds {
                edges: [
                    edge(thread, Kind::Reply, reply),
                    edge(thread, Kind::Receive, endpoint),
                    None,
                    None,
                ],
                way: Way::Receives(thread, reply),
            });
        }
    }
    let called = policy.row(thread, Kind::Call);
    let met = policy
        .targets(servers, &[Kind::Receive])
        .intersection(called);
    let endpoint = met.first()?;
    let server = having(view, Kind::Receive, endpoint)
        .intersection(servers)
        .first()?;
    Some(Grounds {
        edges: [
            edge(server, Kind::Reply, reply),
            edge(server, Kind::Receive, endpoint),
            edge(thread, Kind::Call, endpoint),
            None,
        ],
        way: Way::Calls(thread, server, reply),
    })
}

/// S8: a label that may wait without a context is lent one, by who runs on it and calls where the label receives.
fn lent(view: &View<'_>, borrower: Label, context: Label) -> Option<Grounds> {
    let policy = view.policy;
    if !view.idlers.has(borrower) {
        return None;
    }
    let reply = policy.row(borrower, Kind::Reply).first()?;
    let receiving = policy.row(borrower, Kind::Receive);
    let caller = policy
        .sources(receiving, &[Kind::Call])
        .intersection(having(view, Kind::Runs, context))
        .first()?;
    let met = receiving.intersection(policy.row(caller, Kind::Call));
    let endpoint = met.first()?;
    Some(Grounds {
        edges: [
            edge(borrower, Kind::Reply, reply),
            edge(caller, Kind::Call, endpoint),
            edge(borrower, Kind::Receive, endpoint),
            edge(caller, Kind::Runs, context),
        ],
        way: Way::Lends(caller, borrower),
    })
}
