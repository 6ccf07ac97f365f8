//! The sentences on where the edges of the reach of a table come from: a place of the table, or a sharp rule; and on
//! what in the table, or in its description, may be changed.
use crate::closing::MOST_EDGES;
use crate::origins::{line_of_origin, place_of, push_edge, push_new, push_place_of};
use crate::rounds::Rounds;
use crate::sharp_denials::edges_of;
use base::{Edge, Label, Labels, Refusal, SlotRef};
use captext::{SlotName, label_name};
use explain_rules::{
    At, EdgeLine, EdgeList, Grounds, Sheet, Start, Way, WayWords, comes_by_right, line_of_place,
    name_of_label, push_nothing, remedy_at,
};
use labels::declared_label;
use machine::ObjectKind;
use policy::Why;
use reach::Reach;
use std::alloc::{AllocError, Global};
use std::fmt;
use table::Table;
use verdict::Denial;

/// How many places of a table are named that may be changed.
const MOST_PLACES: usize = 3;

/// Where the edges of the reach of a table come from.
#[derive(Drop)]
pub struct Origins<'a> {
    sheet: Sheet<'a>,
    rounds: Rounds,
}

impl<'a> Origins<'a> {
    /// Returns where the edges of the reach of a table come from. The reach is that of the sheet's table.
    ///
    /// # Errors
    ///
    /// 40 where memory is refused.
    pub fn of(alloc: Global, sheet: Sheet<'a>, reach: &Reach<'_>) -> Result<Origins<'a>, Refusal> {
        let rounds = Rounds::of(alloc, reach)?;
        Ok(Origins { sheet, rounds })
    }

    /// Adds a line for each of these edges of the reach: where it comes from. The edges by which a rule requires one
    /// of them are added to `edges`, and get lines too.
    ///
    /// # Errors
    ///
    /// 40 where memory is refused. Then some of the lines may have been added.
    pub fn push_lines(
        &self,
        alloc: Global,
        lines: &mut String,
        edges: &mut Vec<Edge>,
    ) -> Result<(), Refusal> {
        let mut told = Told {
            keepers: Labels::none(),
            idlers: Labels::none(),
        };
        for number in 0..MOST_EDGES {
            match edges.get(number) {
                Some(edge) => {
                    let edge = *edge;
                    self.push_origin(alloc, lines, edge, edges, &mut told)?;
                }
                None => break,
            }
        }
        Ok(())
    }

    /// Adds where an edge comes from, and to `edges` those by which a rule requires it, if one does.
    fn push_origin(
        &self,
        alloc: Global,
        lines: &mut String,
        edge: Edge,
        edges: &mut Vec<Edge>,
        told: &mut Told,
    ) -> Result<(), Refusal> {
        if push_place_of(alloc, lines, self.sheet, &edge)? {
            return Ok(());
        }
        match self.rounds.grounds_of(self.sheet.table, edge) {
            Some(grounds) => self.push_grounds(alloc, lines, edge, &grounds, edges, told),
            None => Ok(()),
        }
    }

    /// Adds by which rule an edge is required, and on which grounds. Edges among these are added to `edges`.
    fn push_grounds(
        &self,
        alloc: Global,
        lines: &mut String,
        edge: Edge,
        grounds: &Grounds,
        edges: &mut Vec<Edge>,
        told: &mut Told,
    ) -> Result<(), Refusal> {
        let table = self.sheet.table;
        let by = edges_of(alloc, grounds)?;
        push_required(lines, table, edge, grounds, &by)?;
        push_new(edges, &by)?;
        if let Some(keeper) = grounds.way.keeper() {
            self.push_keeper(lines, keeper, edges, told)?;
        }
        if let Way::Lends(_, idler) = grounds.way {
            self.push_idler(lines, idler, edges, told)?;
        }
        Ok(())
    }

    /// Adds why a label keeps a capability for a CNode, if that isn't told. Edges by which it does are added to
    /// `edges`.
    fn push_keeper(
        &self,
        lines: &mut String,
        keeper: Label,
        edges: &mut Vec<Edge>,
        told: &mut Told,
    ) -> Result<(), AllocError> {
        let mut label = keeper;
        for _ in 0..Label::COUNT {
            if told.keepers.has(label) {
                break;
            }
            told.keepers = told.keepers.union(Labels::only(label));
            match self.rounds.keeping_of(self.sheet.table, label) {
                Some((edge, other)) => {
                    push_kept_by(lines, self.sheet.table, label, &edge, other)?;
                    push_edge(edges, edge)?;
                    label = other;
                }
                None => {
                    push_held(lines, self.sheet, label)?;
                    break;
                }
            }
        }
        Ok(())
    }

    /// Adds why a thread of a label may wait without a context, if that isn't told. Edges by which it may are added
    /// to `edges`.
    fn push_idler(
        &self,
        lines: &mut String,
        idler: Label,
        edges: &mut Vec<Edge>,
        told: &mut Told,
    ) -> Result<(), AllocError> {
        if told.idlers.has(idler) {
            return Ok(());
        }
        told.idlers = told.idlers.union(Labels::only(idler));
        match self.rounds.idling_of(idler) {
            Some(by) => {
                push_idling(lines, self.sheet.table, idler, &by)?;
                push_new(edges, &by)
            }
            None => Ok(()),
        }
    }

    /// Returns the places of the table on which these edges rest, each as the denial of a policy that lacks its edge:
    /// the nearest ones, and at most three.
    ///
    /// # Errors
    ///
    /// 40 where memory is refused.
    pub fn places(&self, alloc: Global, edges: &[Edge]) -> Result<Vec<Denial>, Refusal> {
        let mut rest = Vec::new(alloc);
        push_new(&mut rest, edges)?;
        self.places_of(alloc, &mut rest)
    }

    /// The places of these edges, and of those by which rules require them, which are added to the edges.
    fn places_of(&self, alloc: Global, edges: &mut Vec<Edge>) -> Result<Vec<Denial>, Refusal> {
        let mut places = Vec::new(alloc);
        for number in 0..MOST_EDGES {
            match edges.get(number) {
                Some(edge) if places.len() < MOST_PLACES => {
                    let edge = *edge;
                    self.add_place(alloc, &mut places, edge, edges)?;
                }
                _ => break,
            }
        }
        Ok(places)
    }

    /// Adds the place of an edge, or to `edges` those by which a rule requires it.
    fn add_place(
        &self,
        alloc: Global,
        places: &mut Vec<Denial>,
        edge: Edge,
        edges: &mut Vec<Edge>,
    ) -> Result<(), Refusal> {
        if let Some(place) = place_of(alloc, self.sheet.table, &edge)? {
            if may_be_changed(self.sheet, &place) && !has_line(self.sheet, places, &place) {
                places.push(place)?;
            }
            return Ok(());
        }
        if let Some(grounds) = self.rounds.grounds_of(self.sheet.table, edge) {
            push_new(edges, &edges_of(alloc, &grounds)?)?;
        }
        Ok(())
    }

    /// Returns the line of the place that gives an edge, from 1, if one does.
    ///
    /// # Errors
    ///
    /// 40 where memory is refused.
    pub fn line_of(&self, alloc: Global, edge: Edge) -> Result<Option<usize>, Refusal> {
        line_of_origin(alloc, self.sheet, &edge)
    }
}

/// The labels of which it is told why they keep a capability for a CNode, or may wait without a context.
#[derive(Clone, Copy)]
struct Told {
    keepers: Labels,
    idlers: Labels,
}

/// Adds that an edge follows by a rule from these.
fn push_required(
    lines: &mut String,
    table: &Table,
    edge: Edge,
    grounds: &Grounds,
    by: &[Edge],
) -> Result<(), AllocError> {
    let rule = grounds.way.rule();
    let edge = EdgeLine { table, edge };
    let list = EdgeList { table, edges: by };
    let way = WayWords {
        table,
        way: grounds.way,
    };
    writeln!(lines, "`{edge}` follows by {rule} from {list}: {way}")
}

/// Adds that a label keeps a capability for a CNode because another does.
fn push_kept_by(
    lines: &mut String,
    table: &Table,
    label: Label,
    edge: &Edge,
    other: Label,
) -> Result<(), AllocError> {
    let (label, other) = (label_name(table, label), label_name(table, other));
    let edge = EdgeLine { table, edge: *edge };
    writeln!(
        lines,
        "`{label}` keeps a capability for a CNode by `{edge}`: `{other}` keeps one"
    )
}

/// Adds that a label has a capability for a CNode at boot.
fn push_held(lines: &mut String, sheet: Sheet<'_>, label: Label) -> Result<(), AllocError> {
    let Sheet { file, table, made } = sheet;
    match node_slot(table, label) {
        Some(slot) => {
            let label = label_name(table, label);
            let line = sheet.line_of_slot(slot);
            let start = Start { file, line };
            write!(lines, "`{label}` keeps a capability for a CNode: {start}")?;
            if made.is_some() {
                writeln!(lines, "a CNode of `{label}` has one")
            } else {
                let slot = SlotName { table, slot };
                writeln!(lines, "`{slot}` has one")
            }
        }
        None => Ok(()),
    }
}

/// The first slot of a CNode of a label that has a capability for a CNode.
fn node_slot(table: &Table, label: Label) -> Option<SlotRef> {
    for filled in table.caps() {
        let holder = filled.slot.holder;
        if filled.cap.detail.kind() == ObjectKind::CNode
            && table.kind(holder) == Some(ObjectKind::CNode)
            && declared_label(table, holder) == Some(label)
        {
            return Some(filled.slot);
        }
    }
    None
}

/// Adds by which edges a thread of a label may wait without a context.
fn push_idling(
    lines: &mut String,
    table: &Table,
    idler: Label,
    by: &[Edge],
) -> Result<(), AllocError> {
    let idler = label_name(table, idler);
    let list = EdgeList { table, edges: by };
    writeln!(
        lines,
        "`{idler}` may wait without a context by {list}: its context may be taken away"
    )
}

/// Whether one of these places has the line of another.
fn has_line(sheet: Sheet<'_>, places: &[Denial], other: &Denial) -> bool {
    let line = line_of_place(sheet, other);
    places
        .iter()
        .any(|place| line_of_place(sheet, place) == line)
}

/// Whether it can be said how a place may be changed. Of a description that can't be said of each place.
fn may_be_changed(sheet: Sheet<'_>, place: &Denial) -> bool {
    sheet.made.is_none() || remedy_at(sheet, place).is_some()
}

/// Places that may be changed, as the end of a sentence that begins with another way.
///
/// They begin with `, or `, if there are any.
#[derive(Clone, Copy)]
pub struct OtherWays<'a> {
    pub sheet: Sheet<'a>,
    pub places: &'a [Denial],
}

impl fmt::Display for OtherWays<'_> {
    fn fmt<W: fmt::Write>(&self, f: &mut fmt::Formatter<W>) -> fmt::Result {
        for place in self.places {
            if self.sheet.made.is_some() {
                tell_remedy(f, self.sheet, place)?;
            } else {
                tell_change(f, self.sheet, place)?;
            }
        }
        Ok(())
    }
}

/// How a description may be changed at a place.
fn tell_remedy<W: fmt::Write>(
    f: &mut fmt::Formatter<W>,
    sheet: Sheet<'_>,
    place: &Denial,
) -> fmt::Result {
    match remedy_at(sheet, place) {
        Some(remedy) => {
            let at = At {
                file: sheet.file,
                line: line_of_place(sheet, place),
            };
            write!(f, ", or{at} {remedy}")
        }
        None => Ok(()),
    }
}

/// How a table may be changed at a place.
fn tell_change<W: fmt::Write>(
    f: &mut fmt::Formatter<W>,
    sheet: Sheet<'_>,
    place: &Denial,
) -> fmt::Result {
    let at = At {
        file: sheet.file,
        line: line_of_place(sheet, place),
    };
    match *place {
        Denial::Capability { slot, kind, .. } => {
            let label = name_of_label(sheet.table, slot.holder);
            let less = if comes_by_right(kind) {
                "fewer rights"
            } else {
                "no capability"
            };
            write!(f, ", or give `{label}` {less}{at}")
        }
        Denial::Root { .. } => write!(f, ", or give the thread another root{at}"),
        Denial::Pair { .. } => write!(f, ", or remove the `child` line{at}"),
        Denial::Binding { .. } => write!(f, ", or bind the thread to another context{at}"),
        _ => Ok(()),
    }
}

/// Returns a line for each edge of the reason for what the one label's threads may do to the other's objects, and then
/// for each edge by which a rule requires one of those before: where it comes from. It returns why nothing may be done,
/// if that is so. The reach is that of the sheet's table.
///
/// # Errors
///
/// 40 where memory is refused.
pub fn explain_why(
    alloc: Global,
    sheet: Sheet<'_>,
    reach: &Reach<'_>,
    actor: &str,
    object: &str,
) -> Result<String, Refusal> {
    let mut lines = String::new(alloc);
    let table = reach.table();
    if let (Some(actor), Some(object)) = (table.label_named(actor), table.label_named(object)) {
        push_why(alloc, &mut lines, sheet, reach, actor, object)?;
    }
    Ok(lines)
}

/// Adds where the edges of the reason for an authority come from, or why there is none.
fn push_why(
    alloc: Global,
    lines: &mut String,
    sheet: Sheet<'_>,
    reach: &Reach<'_>,
    actor: Label,
    object: Label,
) -> Result<(), Refusal> {
    match reach.why(alloc, actor, object)? {
        Why::Full(mut edges) | Why::Take(mut edges) => {
            let origins = Origins::of(alloc, sheet, reach)?;
            origins.push_lines(alloc, lines, &mut edges)
        }
        Why::Nothing => push_nothing(alloc, lines, reach, actor, object),
    }
}
