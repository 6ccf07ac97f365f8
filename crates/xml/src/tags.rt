//! Names, attributes and the ends of tags.
ghost use Rattle.std.specs.{List.list_any, Prelude.{[], ℕ, ◌+◌, ◌<◌, ◌≡◌, List, OnOk, length, map}, Str.bytes_eq};
ghost use Rattle.words.specs.Reading.{Gives, Reads};
ghost use Rattle.xml.specs.{Place.after_spaces, Tag.{admitted, attribute_at, attributes_at, ends_tag, is_given}};
ghost use Rattle.xml.specs.{Tag.{name_at, tag_end_at}, View.{pair_of, pairs_of}};

use crate::characters::{name_length, space_length};
use crate::cursor::Cursor;
use crate::element::Attribute;
use std::alloc::Global;
use words::{Fault, Wrong};

/// The number of attributes that an element may have.
pub const MAX_ATTRIBUTES: usize = 32;

impl<'a> Cursor<'a> {
    /// Takes a name.
    #[tactic(auto, unfolding(crate::specs::Tag::name_at))]
    pub(crate) fn name(&mut self) -> Result<&'a [u8], Fault>
        ensures { Gives (λ name. (name.now, self.new)) result (name_at self.old) }
    {
        let rest = self.rest();
        let count = name_length(rest);
        if count == 0 || &rest[..count] == b"xmlns".as_slice() {
            return Err(self.fault(Wrong::Syntax));
        }
        Ok(self.advance(count))
    }

    /// Takes the attributes up to the end of the tag.
    ///
    /// # Errors
    ///
    /// 50 where something else stands there, 52 where a name is given twice, 54 where there are too
    /// many or a value is too long, and 40 where memory is refused.
    pub(crate) fn attributes(&mut self, alloc: Global) -> Result<Vec<Attribute<'a>>, Fault>
        ensures { Reads (λ found. (pairs_of found.items, self.new)) result
            (attributes_at (MAX_ATTRIBUTES + 1) [] self.old) }
    {
        let mut found = Vec::new(alloc);
        while !self.tag_ends() {
            let attribute = self.attribute(alloc, &found)?;
            found.push(attribute)?;
        }
        self.spaces();
        Ok(found)
    }

    // Whether the end of the tag comes next, behind white space if there is any.
    #[tactic(auto, unfolding(crate::specs::Place::after_spaces, crate::specs::Place::after))]
    fn tag_ends(&self) -> bool
        ensures { result ≡ ends_tag (after_spaces self.now).rest }
    {
        let rest = self.rest();
        ends_tag(&rest[space_length(rest)..])
    }

    // Takes an attribute that follows those that were found.
    #[tactic(auto, unfolding(crate::specs::Tag::attribute_at, words::specs::Reading::bind))]
    fn attribute(&mut self, alloc: Global, found: &[Attribute<'a>]) -> Result<Attribute<'a>, Fault>
        ensures exact { Reads (λ attribute. (pair_of attribute, self.new)) result
            (attribute_at (pairs_of found.now) self.old) }
        ensures few { OnOk result (length found.now < MAX_ATTRIBUTES) }
    {
        self.must_space()?;
        let name = self.name()?;
        self.admit(found, name)?;
        self.equals()?;
        let value = self.value(alloc)?;
        Ok(Attribute { name, value })
    }

    // Checks that one attribute more may be of this name.
    #[tactic(auto, unfolding(crate::specs::Tag::admitted))]
    fn admit(&self, found: &[Attribute<'a>], name: &[u8]) -> Result<(), Fault>
        ensures exact { result ≡ admitted (pairs_of found.now) name.now self.now.line }
        ensures few { OnOk result (length found.now < MAX_ATTRIBUTES) }
    {
        if is_given(found, name) {
            return Err(self.fault(Wrong::Double));
        }
        if found.len() >= MAX_ATTRIBUTES {
            return Err(self.fault(Wrong::Limit));
        }
        Ok(())
    }

    /// Takes `>`, or `/>`, and returns whether it was `/>`.
    #[tactic(auto, unfolding(crate::specs::Tag::tag_end_at, words::specs::Reading::bind))]
    pub(crate) fn tag_end(&mut self) -> Result<bool, Fault>
        ensures { Gives (λ is_empty. (is_empty, self.new)) result (tag_end_at self.old) }
    {
        if self.begins_with(b"/>") {
            self.advance(2);
            return Ok(true);
        }
        self.expect(b">")?;
        Ok(false)
    }
}

#[tactic(auto, unfolding(crate::specs::Tag::ends_tag))]
fn ends_tag(rest: &[u8]) -> bool
    ensures { result ≡ ends_tag rest.now }
{
    match rest {
        [] => false,
        [byte, ..] => *byte == b'>' || *byte == b'/',
    }
}

// Whether an attribute has this name.
fn is_given(found: &[Attribute<'_>], name: &[u8]) -> bool
    ensures { result ≡ is_given (pairs_of found.now) name.now }
{
    has_name(found, name)
}

// The same, of the attributes as they lie in memory.
fn has_name(found: &[Attribute<'_>], name: &[u8]) -> bool
    ensures { result ≡ list_any (λ attribute. bytes_eq attribute.name.now name.now) found.now }
{
    found.iter().any(|attribute| attribute.name == name)
}
