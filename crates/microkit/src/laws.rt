//! Laws on descriptions.
ghost use Rattle.std.specs.Prelude.{ℕ, ◌≡◌, List, Ok};
ghost use Rattle.xml.specs.Document.{Node, document_of};
ghost use Rattle.microkit.specs.{Description.Description, Outline.IsOutlinedBy, Reading.description_of_text};

use xml::a_document_is_spelled;

/// A law: a description that is read says what the elements of its text say, in their order, and
/// nothing else.
pub fn a_description_says_what_its_text_says()
    ensures { (text : List ℕ) (nodes : List Node) (d : Description) → document_of text ≡ Ok nodes
        → description_of_text text ≡ Ok d → IsOutlinedBy nodes d }
{
    a_document_is_spelled();
}
