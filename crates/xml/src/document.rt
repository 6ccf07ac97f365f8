//! Documents: the declaration, and the comments and tags behind it.
ghost use Rattle.std.specs.{List.list_any, Prelude.{[], ℕ, ◌+◌, ◌≡◌, IfOk, List, OnOk, codes, length, map, reverse}, Str.bytes_eq};
ghost use Rattle.words.specs.Reading.{Gives, Reads};
ghost use Rattle.xml.specs.{Characters.begins_with, Document.{begin_at, closed_at, comment_at, declaration_at}};
ghost use Rattle.xml.specs.Document.{declared_at, document_of, encoding_at, end_at, finished_at, is_one_of};
ghost use Rattle.xml.specs.{Document.{is_whole, item_at, items_at, no_nodes, room_at, with_node}, Grammar.IsDocument};
ghost use Rattle.xml.specs.{Limits.AreLimited, Lines.AreAtLines, Place.after_spaces, View.{nodes_of, pairs_of}};

use crate::characters::{begins_with, comment_length, space_length};
use crate::cursor::Cursor;
use crate::element::{Attribute, Element};
use std::alloc::{AllocError, Global};
use std::marker::Model;
use words::{Fault, Wrong};

/// The number of bytes that a text may have.
pub const MAX_TEXT_LENGTH: usize = 1 << 20;

/// The number of levels that a document may have.
pub const MAX_LEVELS: usize = 66;

/// The number of elements that a document may have.
pub const MAX_ELEMENTS: usize = 20000;

/// Returns the elements of a document, in the order of their tags.
///
/// # Errors
///
/// The first fault of the text, with its line: 50 where it isn't spelled as a document, 52 where an
/// attribute is given twice, and 54 where a limit is passed. A text that is too long has fault 54 at
/// line 1. Where memory is refused, 40 at line 0.
#[tactic(auto, using(crate::proofs::Nesting::is_found, crate::proofs::Bounds::limits_hold, crate::proofs::LineCounts::lines_hold))]
pub fn read_document(alloc: Global, text: &[u8]) -> Result<Vec<Element<'_>>, Fault>
    // Which elements are read, or which fault is the first.
    ensures exact { Reads (λ elements. nodes_of elements.items) result (document_of text.now) }
    // What is read is spelled so.
    ensures found { IfOk result (λ elements. IsDocument text.now (nodes_of elements.items)) }
    ensures lines { IfOk result (λ elements. AreAtLines text.now (nodes_of elements.items)) }
    ensures limits { IfOk result (λ elements. AreLimited (nodes_of elements.items)) }
{
    elements_of(alloc, text)
}

#[tactic(auto, unfolding(crate::specs::Document::document_of, words::specs::Reading::bind))]
fn elements_of(alloc: Global, text: &[u8]) -> Result<Vec<Element<'_>>, Fault>
    ensures { Reads (λ elements. nodes_of elements.items) result (document_of text.now) }
{
    if text.len() > MAX_TEXT_LENGTH {
        return Err(Fault::at(Wrong::Limit, 1));
    }
    let mut cursor = Cursor::new(text);
    cursor.declaration()?;
    let mut draft = Draft::new(alloc);
    draft.take_items(alloc, &mut cursor, text.len())?;
    Ok(draft.elements)
}

// What was read so far.
#[derive(Drop)]
struct Draft<'a> {
    // The names of the elements that are open, the innermost last.
    open_names: Vec<&'a [u8]>,
    elements: Vec<Element<'a>>,
}

impl<'a> Model for Draft<'a> {
    ghost use Rattle.std.specs.Prelude.{map, reverse};
    ghost use Rattle.xml.specs.{Document.Draft, View.nodes_of};

    ghost Value = { Draft };

    ghost view = { λ d. record { open_names = reverse (map (λ name. name.now) d.open_names.items); nodes = nodes_of d.elements.items } };
}

impl<'a> Draft<'a> {
    fn new(alloc: Global) -> Draft<'a>
        ensures { result ≡ no_nodes }
    {
        Draft {
            open_names: Vec::new(alloc),
            elements: Vec::new(alloc),
        }
    }

    // Takes the comments and tags up to the end of the text, at most a given number.
    #[tactic(auto, using(crate::proofs::Loops::items_end, crate::proofs::Loops::items_more, crate::proofs::Loops::items_over))]
    fn take_items(
        &mut self,
        alloc: Global,
        cursor: &mut Cursor<'a>,
        count: usize,
    ) -> Result<(), Fault>
        ensures { Reads (λ _. self.new.nodes) result (items_at count self.old cursor.old) }
    {
        for _ in 0..count {
            cursor.spaces();
            if cursor.rest().is_empty() {
                return self.finish(cursor);
            }
            self.take_item(alloc, cursor)?;
        }
        self.finish(cursor)
    }

    // Checks that nothing is left, and that the root was read.
    #[tactic(auto, unfolding(crate::specs::Document::finished_at))]
    fn finish(&self, cursor: &Cursor<'a>) -> Result<(), Fault>
        ensures { Gives (λ _. self.now.nodes) result (finished_at self.now cursor.now) }
    {
        if self.is_whole() && cursor.rest().is_empty() {
            Ok(())
        } else {
            Err(cursor.fault(Wrong::Syntax))
        }
    }

    // Whether the root was read, and no element is open.
    #[tactic(auto, unfolding(crate::specs::Document::is_whole))]
    fn is_whole(&self) -> bool
        ensures { result ≡ is_whole self.now }
    {
        self.open_names.is_empty() && !self.elements.is_empty()
    }

    // Takes a comment or a tag.
    #[tactic(auto, unfolding(crate::specs::Document::item_at, words::specs::Reading::bind))]
    fn take_item(&mut self, alloc: Global, cursor: &mut Cursor<'a>) -> Result<(), Fault>
        ensures { Reads (λ _. (self.new, cursor.new)) result (item_at self.old cursor.old) }
    {
        if cursor.begins_with(b"<!--") {
            cursor.comment()?;
            return Ok(());
        }
        if self.is_whole() {
            return Err(cursor.fault(Wrong::Syntax));
        }
        if cursor.begins_with(b"</") {
            return self.end(cursor);
        }
        self.begin(alloc, cursor)
    }

    // Takes the tag that begins an element.
    #[tactic(auto, unfolding(crate::specs::Document::begin_at, words::specs::Reading::bind))]
    fn begin(&mut self, alloc: Global, cursor: &mut Cursor<'a>) -> Result<(), Fault>
        ensures { Reads (λ _. (self.new, cursor.new)) result (begin_at self.old cursor.old) }
    {
        let line = cursor.line();
        cursor.expect(b"<")?;
        let name = cursor.name()?;
        self.check_room(line)?;
        let attributes = cursor.attributes(alloc)?;
        let is_empty = cursor.tag_end()?;
        self.add(line, name, attributes, is_empty)?;
        Ok(())
    }

    // Checks that one element more may begin in this line.
    #[tactic(auto, unfolding(crate::specs::Document::room_at))]
    fn check_room(&self, line: u64) -> Result<(), Fault>
        ensures { result ≡ room_at self.now line }
    {
        if self.open_names.len() >= MAX_LEVELS || self.elements.len() >= MAX_ELEMENTS {
            return Err(Fault::at(Wrong::Limit, line));
        }
        Ok(())
    }

    // Adds an element, which is open unless its tag is empty.
    #[tactic(auto, unfolding(crate::specs::Document::with_node))]
    fn add(
        &mut self,
        line: u64,
        name: &'a [u8],
        attributes: Vec<Attribute<'a>>,
        is_empty: bool,
    ) -> Result<(), AllocError>
        ensures { OnOk result (self.new
            ≡ with_node self.old line name.now (pairs_of attributes.entry.items) is_empty) }
    {
        let level = self.open_names.len() + 1;
        self.elements.push(Element {
            level,
            line,
            name,
            attributes,
        })?;
        if !is_empty {
            self.open_names.push(name)?;
        }
        Ok(())
    }

    // Takes the tag that ends the innermost open element.
    #[tactic(auto, unfolding(crate::specs::Document::end_at, words::specs::Reading::bind))]
    fn end(&mut self, cursor: &mut Cursor<'a>) -> Result<(), Fault>
        ensures { Gives (λ _. (self.new, cursor.new)) result (end_at self.old cursor.old) }
    {
        let line = cursor.line();
        cursor.expect(b"</")?;
        let name = cursor.name()?;
        self.close(name, line)?;
        cursor.spaces();
        cursor.expect(b">")?;
        Ok(())
    }

    // Closes the innermost open element, which must have this name.
    #[tactic(auto, unfolding(crate::specs::Document::closed_at))]
    fn close(&mut self, name: &[u8], line: u64) -> Result<(), Fault>
        ensures open { Gives (λ _. self.new.open_names) result
            (closed_at line self.old.open_names name.now) }
        ensures nodes { self.new.nodes ≡ self.old.nodes }
    {
        match self.open_names.pop() {
            Some(inner) if inner == name => Ok(()),
            _ => Err(Fault::at(Wrong::Syntax, line)),
        }
    }
}

impl<'a> Cursor<'a> {
    // Takes a comment, which the first `--` ends.
    #[tactic(auto, unfolding(crate::specs::Document::comment_at, words::specs::Reading::bind))]
    fn comment(&mut self) -> Result<(), Fault>
        ensures { Gives (λ _. self.new) result (comment_at self.old) }
    {
        self.expect(b"<!--")?;
        let count = comment_length(self.rest());
        self.advance(count);
        self.expect(b"-->")
    }

    // Takes the declaration, where there is one.
    #[tactic(auto, unfolding(crate::specs::Document::declaration_at, words::specs::Reading::bind))]
    fn declaration(&mut self) -> Result<(), Fault>
        ensures { Gives (λ _. self.new) result (declaration_at self.old) }
    {
        if !self.begins_with(b"<?xml") {
            return Ok(());
        }
        self.advance(5);
        self.declared(b"version", &[b"1.0"])?;
        self.encoding()?;
        self.spaces();
        self.expect(b"?>")
    }

    // Takes the encoding, where one is declared.
    #[tactic(auto, unfolding(crate::specs::Document::encoding_at))]
    fn encoding(&mut self) -> Result<(), Fault>
        ensures { Gives (λ _. self.new) result (encoding_at self.old) }
    {
        if !self.encoding_follows() {
            return Ok(());
        }
        self.declared(b"encoding", &[b"UTF-8", b"utf-8", b"US-ASCII", b"us-ascii"])
    }

    // Whether an encoding is declared, behind white space if there is any.
    #[tactic(auto, unfolding(crate::specs::Place::after_spaces, crate::specs::Place::after))]
    fn encoding_follows(&self) -> bool
        ensures { result ≡ begins_with (after_spaces self.now).rest (codes "encoding") }
    {
        let rest = self.rest();
        begins_with(&rest[space_length(rest)..], b"encoding")
    }

    // Takes a part of the declaration: white space, this word, and one of these values.
    #[tactic(auto, unfolding(crate::specs::Document::declared_at, words::specs::Reading::bind))]
    fn declared(&mut self, word: &[u8], values: &[&[u8]]) -> Result<(), Fault>
        ensures { Gives (λ _. self.new) result
            (declared_at word.now (map (λ value. value.now) values.now) self.old) }
    {
        self.must_space()?;
        self.expect(word)?;
        self.equals()?;
        let value = self.quoted()?;
        if !is_one_of(value, values) {
            return Err(self.fault(Wrong::Syntax));
        }
        Ok(())
    }
}

// Whether a value is one of those that are known.
fn is_one_of(value: &[u8], values: &[&[u8]]) -> bool
    ensures { result ≡ is_one_of (map (λ known. known.now) values.now) value.now }
{
    is_known(value, values)
}

// The same, of the values as they lie in memory.
fn is_known(value: &[u8], values: &[&[u8]]) -> bool
    ensures { result ≡ list_any (λ known. bytes_eq known.now value.now) values.now }
{
    values.iter().any(|known| *known == value)
}
