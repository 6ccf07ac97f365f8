//! Choices of a user: what a command writes, or what it looks for.
use importing::Minting;
use verdict::Rules;

/// What `check` writes where a table and a policy are accepted.
#[derive(Clone, Copy, PartialEq, Eq)]
pub enum OnAccept {
    /// The report, with each label's cut and full authority.
    Report,
    /// The text of the table's certificate.
    Certificate,
}

/// What `close` writes.
#[derive(Clone, Copy, PartialEq, Eq)]
pub enum OnClose {
    /// The text of the least policy, with status 0.
    Policy,
    /// The lines of those of its edges that the given policy lacks. The status is 0 if there are none, so that the
    /// table keeps to the given policy; else 1.
    Missing,
    /// The lines of those edges of the given policy that the least one for the table alone lacks. The status is 0 if
    /// there are none, else 1.
    Surplus,
}

/// What `import` writes.
#[derive(Clone, Copy, PartialEq, Eq)]
pub enum Imported {
    /// The capability table.
    Table,
    /// The claims that the description makes.
    Claims,
}

/// How `import` reads a description, and what it writes of it.
#[derive(Clone, Copy)]
pub struct OnImport {
    /// Which rights the capabilities have.
    pub minting: Minting,
    pub writes: Imported,
}

/// Which labels a drawing has.
#[derive(Clone, Copy, PartialEq, Eq)]
pub enum Picture {
    /// Those of programs; memory stands in the arrows' words.
    Programs,
    /// All labels of the table.
    Labels,
}

/// In which form `why`, `summary` and `diff` answer.
#[derive(Clone, Copy, PartialEq, Eq)]
pub enum Form {
    /// As text.
    Text,
    /// As one JSON object on a line.
    Json,
}

/// Which users of a label `why` lists.
#[derive(Clone, Copy, PartialEq, Eq)]
pub enum Use {
    /// The labels that may change it.
    Changes,
    /// The labels that may read it.
    Reads,
}

/// What `show` looks for, and how long.
#[derive(Clone, Copy, PartialEq, Eq)]
pub struct Search {
    /// Whether the object only has to shrink.
    pub takes: bool,
    /// The most calls that are tried, 1 to 1,000,000.
    pub steps: u64,
}

/// As what the first file of a command is read.
#[derive(Clone, Copy)]
pub enum Taken {
    /// As a capability table.
    Table,
    /// As a system: a description, whose capabilities then have these rights, or a table, for which none are given.
    System(Option<Minting>),
    /// As one of two systems: a description, whose capabilities then have these rights, or a table.
    Either(Option<Minting>),
}

/// What is asked of a system alone.
#[derive(Clone, Copy)]
pub enum OfSystem<'a> {
    /// Writes the least policy for the system by these rules, or how another differs from it.
    Start(Rules, OnClose),
    /// Lists the objects.
    List,
    /// Reports what threads of the label `actor` may do to objects of the label `object`, and why.
    Why {
        form: Form,
        actor: &'a str,
        object: &'a str,
    },
    /// Lists the other labels that may use objects of the label `object` in this way.
    Users {
        usage: Use,
        object: &'a str,
    },
    /// Searches for a run in which a thread of the label `actor` changes an object of the label `object`.
    Show {
        search: Search,
        actor: &'a str,
        object: &'a str,
    },
    /// Draws who may change or take from whom.
    Draw(Picture),
    /// Summarises who may change whom, and who uses which memory.
    Summary(Form),
    /// Reports what flows from the label `from` to the label `to`, and through which programs.
    Flows {
        from: &'a str,
        to: &'a str,
    },
    /// Reports for each two programs through how many others all flows from the one to the other go.
    AllFlows,
    /// Writes the strongest claims that hold.
    Strongest,
}

/// What is asked of a system and a policy.
#[derive(Clone, Copy)]
pub enum OfPolicy<'a> {
    /// Closes the policy over the system by these rules.
    Close(Rules, OnClose),
    /// Reports what the policy lets threads of the label `actor` do to objects of the label `object`, and
    /// why. This says nothing about runs.
    Why {
        form: Form,
        actor: &'a str,
        object: &'a str,
    },
    /// Draws whom the policy lets change or take from whom.
    Draw(Picture),
}
