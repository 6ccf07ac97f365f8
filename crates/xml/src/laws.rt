//! Laws about documents.
ghost use Rattle.std.specs.Prelude.{ℕ, ◌≡◌, List, Ok};
ghost use Rattle.xml.specs.{Document.{Node, document_of}, Grammar.IsDocument};

/// A law: what is read is spelled so.
///
/// The elements that are read are those of a document, with their levels, lines, names and
/// attributes, in the order of their tags.
pub fn a_document_is_spelled()
    ensures { (text : List ℕ) (nodes : List Node) → document_of text ≡ Ok nodes → IsDocument text nodes }
{}
