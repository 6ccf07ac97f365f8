//! The rights of a capability.
ghost use Rattle.std.specs.{Int.RustNames.bit_and, Prelude.{[], ℕ, ⊤, ◌<◌, ◌==◌, ◌↔◌, ◌∷◌, ◌≡◌, IfSome, List, None, Some, codes}};
ghost use Rattle.base.specs.declared.rights.Rights.{Rights as Set};
ghost use Rattle.base.specs.Rights.{IsRights, bit_in, letter_of, rights_of_word, rights_with, rights_word};

use bitflags::{Flag, Flags, bitflag_items};
use std::fmt;

/// The rights of a capability (seL4 manual, "Capability Rights"), spelled `r`, `w`, `g` and `y` in texts.
#[derive(Clone, Copy, PartialEq, Eq)]
pub struct Rights(u8);

bitflag_items! {
    impl Rights: u8 {
        const READ = 1;
        const WRITE = 2;
        const GRANT = 4;
        const GRANT_REPLY = 8;
    }
}

impl Flags for Rights {
    type Bits = u8;

    ghost exact = { ⊤ };

    ghost table = { (codes "READ", 1) ∷ (codes "WRITE", 2) ∷ (codes "GRANT", 4) ∷ (codes "GRANT_REPLY", 8) ∷ [] };

    ghost set_of = { λ rights. rights.0 };

    fn flags<'a>() -> &'a [Flag<Rights>] {
        Rights::FLAGS
    }

    fn bits(&self) -> u8 {
        self.0
    }

    fn from_bits_retain(bits: u8) -> Rights {
        Rights(bits)
    }
}

impl Rights {
    /// Returns the set of rights that a word names, if it names one.
    ///
    /// The word is `-` for none, or the letters of those that are in the set, in the order `r`,
    /// `w`, `g`, `y`.
    pub fn from_word(word: &[u8]) -> Option<Rights>
        ensures { result ≡ rights_of_word word.now }
    {
        // No other set has the letters that are in the word.
        let read = Rights::bit_if(word, b'r', Rights::READ);
        let write = Rights::bit_if(word, b'w', Rights::WRITE);
        let grant = Rights::bit_if(word, b'g', Rights::GRANT);
        let grant_reply = Rights::bit_if(word, b'y', Rights::GRANT_REPLY);
        let bits = read + write + grant + grant_reply;
        if Rights::word_of(bits).as_bytes() == word {
            Some(Rights(bits))
        } else {
            None
        }
    }

    // The bit of the right, if its letter is in the word.
    fn bit_if(word: &[u8], letter: u8, right: Rights) -> u8
        ensures { result ≡ bit_in word.now letter right.0 }
    {
        if word.contains(&letter) { right.0 } else { 0 }
    }

    // The word of the set with these bits.
    fn word_of(bits: u8) -> &'static str
        requires { bits < 16 }
        ensures { result.now ≡ rights_word (rights_with bits) }
    {
        match bits {
            0 => "-",
            1 => "r",
            2 => "w",
            3 => "rw",
            4 => "g",
            5 => "rg",
            6 => "wg",
            7 => "rwg",
            8 => "y",
            9 => "ry",
            10 => "wy",
            11 => "rwy",
            12 => "gy",
            13 => "rgy",
            14 => "wgy",
            _ => "rwgy",
        }
    }

    // The four rights.
    const SPELLED: u8 = 0b1111;

    // The letter, if the set has the right.
    fn letter(self, right: Rights, letter: &'static str) -> &'static str
        ensures { result.now ≡ letter_of self right.0 letter.now }
    {
        if self.contains(right) { letter } else { "" }
    }
}

impl fmt::Display for Rights {
    ghost output = { λ rights. Some (rights_word rights) };

    fn fmt<W: fmt::Write>(&self, f: &mut fmt::Formatter<W>) -> fmt::Result {
        if self.0 & Rights::SPELLED == 0 {
            return f.write_str("-");
        }
        let read = self.letter(Rights::READ, "r");
        let write = self.letter(Rights::WRITE, "w");
        let grant = self.letter(Rights::GRANT, "g");
        let grant_reply = self.letter(Rights::GRANT_REPLY, "y");
        write!(f, "{read}{write}{grant}{grant_reply}")
    }
}

/// A law: a word names a set exactly where it is the word of that set of the four rights.
///
/// A word that is read as a set is written again for that set, and the word of a set is read as that set. So different
/// sets have different words.
pub fn rights_words_are_read_back()
    ensures written { (word : List ℕ) → IfSome (rights_of_word word) (λ rights. word ≡ rights_word rights) }
    ensures read { (n : ℕ) → n < 16 → rights_of_word (rights_word (rights_with n)) ≡ Some (rights_with n) }
    ensures named { (word : List ℕ) (rights : Set)
        → (rights_of_word word ≡ Some rights) ↔ ((word ≡ rights_word rights) × IsRights rights) }
    ensures once { (one other : Set) → IsRights one → IsRights other
        → rights_word one ≡ rights_word other → one ≡ other }
{}
