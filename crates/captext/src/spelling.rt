//! Laws about the words of slots and of terms.
ghost use Rattle.std.specs.Prelude.{ℕ, ◌↔◌, ◌≡◌, List, Some, true};
ghost use Rattle.words.specs.Name.{is_name};
ghost use Rattle.captext.specs.{declared.shapes.{Place.Place as PlaceOf, Term.Term as TermOf}, Shapes.{slot_of, term_of}, Spelling.IsPlace};
ghost use Rattle.captext.specs.Spelling.{IsTerm, slot_word, term_word};

/// A law: a word is read as a slot exactly where it is that slot's word.
///
/// The holder's name is a name then, and the index is below 2^64. So different slots have different
/// words.
pub fn slots_are_read_back()
    ensures named { (word name : List ℕ) (at : PlaceOf) → (slot_of word ≡ Some (name, at))
        ↔ ((word ≡ slot_word name at) × (is_name name ≡ true) × IsPlace at) }
    ensures once { (name other_name : List ℕ) (at other : PlaceOf)
        → is_name name ≡ true → IsPlace at → is_name other_name ≡ true → IsPlace other
        → slot_word name at ≡ slot_word other_name other → (name ≡ other_name) × (at ≡ other) }
{}

/// A law: a word after the object in a line for a capability is read as a term exactly where it is
/// that term's word.
///
/// So no word is at once of two of the forms rights, decimal and hexadecimal number, and different
/// terms have different words.
pub fn terms_are_read_back()
    ensures named { (word : List ℕ) (term : TermOf)
        → (term_of word ≡ Some term) ↔ ((word ≡ term_word term) × IsTerm term) }
    ensures once { (one other : TermOf) → IsTerm one → IsTerm other
        → term_word one ≡ term_word other → one ≡ other }
{}
