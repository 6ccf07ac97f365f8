//! Changes from one system to another, and whether they add authority.
ghost use Rattle.std.specs.Prelude.{◌≡◌};
ghost use Rattle.summary.specs.Regions.{is_same};
ghost use Rattle.diff.specs.Changes.{adds, adds_extent, adds_letters, adds_marks, adds_standing, gains, has_marks, same_extent};
ghost use Rattle.diff.specs.Changes.{same_letters, same_marks, sign_of, sign_of_marks, sign_of_standing};
ghost use Rattle.diff.specs.Text.{role_text, sign_text, standing_text, verb_text};

use crate::names::Named;
use base::Kind;

/// What a name is in a system.
#[derive(Clone, Copy)]
pub enum Standing {
    /// No label.
    Absent,
    /// A label without a thread.
    Label,
    /// A label with a thread.
    Program,
}

/// What threads of one program may do to objects of another, as a cell of the summary's matrix says it.
#[derive(Clone, Copy)]
pub struct Marks {
    /// Whether they may change them ..
    pub changes: bool,
    /// .. by a call or a send,
    pub calls: bool,
    /// .. by an answer, or by taking a call,
    pub answers: bool,
    /// .. by a signal,
    pub signals: bool,
    /// .. for another reason.
    pub others: bool,
    /// Whether they may only make them smaller.
    pub takes: bool,
    /// Whether the other has memory that they may write.
    pub shares: bool,
}

impl Standing {
    /// Returns the word for it.
    pub fn as_str(self) -> &'static str
        ensures { result.now ≡ standing_text self }
    {
        match self {
            Standing::Absent => "nothing",
            Standing::Label => "label",
            Standing::Program => "program",
        }
    }
}

impl Marks {
    /// Whether there is a mark, so that the cell isn't a dot.
    pub(crate) fn any(self) -> bool
        ensures { result ≡ has_marks self }
    {
        self.changes || self.takes || self.shares
    }

    /// Whether there is a mark that the old cell lacks. To take is less than to change.
    pub(crate) fn add_to(self, old: Marks) -> bool
        ensures { result ≡ adds_marks old self }
    {
        self.add_letters_to(old) || self.add_extent_to(old)
    }

    fn add_letters_to(self, old: Marks) -> bool
        ensures { result ≡ adds_letters old self }
    {
        gains(old.calls, self.calls)
            || gains(old.answers, self.answers)
            || gains(old.signals, self.signals)
            || gains(old.others, self.others)
    }

    fn add_extent_to(self, old: Marks) -> bool
        ensures { result ≡ adds_extent old self }
    {
        gains(old.changes, self.changes)
            || gains(old.takes, self.takes) && !old.changes
            || gains(old.shares, self.shares)
    }

    /// Whether the cell is the same in both systems.
    pub(crate) fn is(self, old: Marks) -> bool
        ensures { result ≡ same_marks old self }
    {
        self.has_letters_of(old) && self.has_extent_of(old)
    }

    fn has_letters_of(self, old: Marks) -> bool
        ensures { result ≡ same_letters old self }
    {
        is_same(old.calls, self.calls)
            && is_same(old.answers, self.answers)
            && is_same(old.signals, self.signals)
            && is_same(old.others, self.others)
    }

    fn has_extent_of(self, old: Marks) -> bool
        ensures { result ≡ same_extent old self }
    {
        is_same(old.changes, self.changes)
            && is_same(old.takes, self.takes)
            && is_same(old.shares, self.shares)
    }
}

fn gains(old: bool, new: bool) -> bool
    ensures { result ≡ gains old new }
{
    new && !old
}

fn is_same(old: bool, new: bool) -> bool
    ensures { result ≡ is_same old new }
{
    old == new
}

/// What a program may do to objects of a label without a thread.
#[derive(Clone, Copy)]
pub enum Verb {
    /// It may change them.
    Changes,
    /// It may only make them smaller.
    Takes,
    /// It may read them: take words, messages or signals from them.
    Reads,
}

impl Verb {
    /// Returns the word for it.
    pub fn as_str(self) -> &'static str
        ensures { result.now ≡ verb_text self }
    {
        match self {
            Verb::Changes => "changes",
            Verb::Takes => "takes",
            Verb::Reads => "reads",
        }
    }
}

/// What a label may be, beside what it does to others.
#[derive(Clone, Copy)]
pub enum Role {
    /// One that may keep capabilities for CNodes.
    Keeper,
    /// One whose threads make calls.
    Actor,
}

impl Role {
    /// Returns the word for it.
    pub fn as_str(self) -> &'static str
        ensures { result.now ≡ role_text self }
    {
        match self {
            Role::Keeper => "keeper",
            Role::Actor => "actor",
        }
    }
}

/// Whether something is new, gone, or another than it was.
#[derive(Clone, Copy)]
pub enum Sign {
    Gained,
    Lost,
    Differs,
}

impl Sign {
    /// Returns what a line on a change begins with.
    pub fn as_str(self) -> &'static str
        ensures { result.now ≡ sign_text self }
    {
        match self {
            Sign::Gained => "+",
            Sign::Lost => "-",
            Sign::Differs => "~",
        }
    }
}

/// A change from one system to another.
#[derive(Clone, Copy)]
pub enum Change {
    /// What a name is in the one and in the other.
    Standing(Named, Standing, Standing),
    /// What threads of one program may do to objects of another.
    Cell(Named, Named, Marks, Marks),
    /// What a program does to a label without a thread.
    Use(Sign, Named, Verb, Named),
    /// What a label is.
    Role(Sign, Role, Named),
    /// An edge of the reach, where no other change shows it.
    Edge(Sign, Named, Kind, Named),
}

impl Change {
    /// Returns whether it is about something new, gone, or another than it was.
    pub fn sign(&self) -> Sign
        ensures { result ≡ sign_of self.now }
    {
        match self {
            Change::Standing(_, old, new) => sign_of_standing(*old, *new),
            Change::Cell(_, _, old, new) => sign_of_marks(*old, *new),
            Change::Use(sign, _, _, _) | Change::Role(sign, _, _) | Change::Edge(sign, _, _, _) =>
                *sign,
        }
    }

    /// Returns whether something may be done in the new system that couldn't be in the old one.
    pub fn adds(&self) -> bool
        ensures { result ≡ adds self.now }
    {
        match self {
            Change::Standing(_, old, new) => adds_standing(*old, *new),
            Change::Cell(_, _, old, new) => new.add_to(*old),
            Change::Use(sign, _, _, _) | Change::Role(sign, _, _) | Change::Edge(sign, _, _, _) => {
                *sign == Sign::Gained
            }
        }
    }
}

/// Returns whether a label is new, or has a thread now.
pub(crate) fn adds_standing(old: Standing, new: Standing) -> bool
    ensures { result ≡ adds_standing old new }
{
    match (old, new) {
        (Standing::Absent, Standing::Label | Standing::Program)
        | (Standing::Label, Standing::Program) => true,
        _ => false,
    }
}

/// Returns whether a label is new, gone, or another than it was.
pub(crate) fn sign_of_standing(old: Standing, new: Standing) -> Sign
    ensures { result ≡ sign_of_standing old new }
{
    match (old, new) {
        (Standing::Absent, _) => Sign::Gained,
        (_, Standing::Absent) => Sign::Lost,
        _ => Sign::Differs,
    }
}

/// Returns whether a cell is new, gone, or another than it was.
pub(crate) fn sign_of_marks(old: Marks, new: Marks) -> Sign
    ensures { result ≡ sign_of_marks old new }
{
    if !old.any() {
        return Sign::Gained;
    }
    if !new.any() {
        return Sign::Lost;
    }
    Sign::Differs
}
