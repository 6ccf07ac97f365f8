//! Classes of characters, and whether words are made of them.

/// A class of characters.
#[derive(Clone, Copy)]
pub enum Class {
    Capital,
    Small,
    Digit,
    /// A digit of a hexadecimal number.
    HexDigit,
    /// What a name has after its first letter.
    OfName,
    /// Printable ASCII.
    Printable,
}

impl Class {
    /// Returns whether a byte is of the class.
    pub fn has(self, byte: u8) -> bool {
        match self {
            Class::Capital => matches!(byte, b'A'..=b'Z'),
            Class::Small => matches!(byte, b'a'..=b'z'),
            Class::Digit => matches!(byte, b'0'..=b'9'),
            Class::HexDigit => matches!(byte, b'0'..=b'9' | b'a'..=b'f'),
            Class::OfName => matches!(byte, b'a'..=b'z' | b'0'..=b'9' | b'_'),
            Class::Printable => matches!(byte, b' '..=b'~'),
        }
    }

    /// Returns whether some of these bytes is of the class.
    pub fn is_in(self, bytes: &[u8]) -> bool {
        for byte in bytes {
            if self.has(*byte) {
                return true;
            }
        }
        false
    }

    /// Returns whether each of these bytes is of the class.
    pub fn has_all(self, bytes: &[u8]) -> bool {
        for byte in bytes {
            if !self.has(*byte) {
                return false;
            }
        }
        true
    }
}
