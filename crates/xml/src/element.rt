//! What a document is read as: a list of its elements.

/// An attribute of an element, its references replaced by the characters that they name.
#[derive(Drop)]
pub struct Attribute<'a> {
    pub name: &'a [u8],
    pub value: Vec<u8>,
}

/// An element of a document.
///
/// The elements are listed in the order of their tags, so an element's children are those of the
/// next level up to the next element of its own level or a lower one.
#[derive(Drop)]
pub struct Element<'a> {
    /// 1 for the root, and one more than the parent's for any other.
    pub level: usize,
    /// The line in which the element's tag begins, counted from 1.
    pub line: u64,
    pub name: &'a [u8],
    pub attributes: Vec<Attribute<'a>>,
}
