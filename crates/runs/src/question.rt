//! Questions, which a search for runs answers.
use base::Label;

/// The question whether a thread of one label can change an object of another.
#[derive(Clone, Copy)]
pub struct Question {
    /// The label whose thread makes the last call.
    pub actor: Label,
    /// The label of the object that this call changes.
    pub object: Label,
    /// Whether the object must shrink. If not, it must change in another way.
    pub taking: bool,
}
