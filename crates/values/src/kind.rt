// What a value is, as a number: 0, 1 or 2 is its first byte in a row, and one more that of its column in a key.
ghost use Rattle.std.specs.Prelude.{◌≡◌, ◌+◌, ◌<◌, ◌⊎◌, MatchOption};
ghost use Rattle.values.specs.Kind.{number_of, kind_of};

use crate::Value;

// Nulls come before numbers, numbers before texts.
#[derive(Clone, Copy, PartialEq, Eq)]
pub(crate) enum Kind {
    Null,
    Number,
    Text,
}

impl Kind {
    pub(crate) fn in_row(self) -> u8
        ensures { result ≡ number_of self }
    {
        self as u8
    }

    pub(crate) fn in_key(self) -> u8
        ensures { result ≡ number_of self + 1 }
    {
        self as u8 + 1
    }

    pub(crate) fn of_row(byte: u8) -> Option<Kind>
        ensures { MatchOption result (2 < byte) (λ k. byte ≡ number_of k) }
    {
        match byte {
            0 => Some(Kind::Null),
            1 => Some(Kind::Number),
            2 => Some(Kind::Text),
            _ => None,
        }
    }

    pub(crate) fn of_key(byte: u8) -> Option<Kind>
        ensures { MatchOption result ((byte ≡ 0) ⊎ (3 < byte)) (λ k. byte ≡ number_of k + 1) }
    {
        Kind::of_row(byte.checked_sub(1)?)
    }
}

impl<'a> Value<'a> {
    pub(crate) fn kind(self) -> Kind
        ensures { result ≡ kind_of self.entry }
    {
        match self {
            Value::Null => Kind::Null,
            Value::Number(_) => Kind::Number,
            Value::Text(_) => Kind::Text,
        }
    }
}
