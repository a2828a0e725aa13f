// Single tokens taken: keywords, signs, names, numbers, operators.
ghost use Rattle.std.specs.Prelude.{◌≡◌, ◌==◌, map};
ghost use Rattle.std.specs.Char.{to_ascii_lowercase};
ghost use Rattle.std.specs.List.{list_all, list_any, zip};
ghost use Rattle.meaning.specs.Text.{small, keywords};
ghost use Rattle.meaning.specs.Meaning.{same_name, some};
ghost use Rattle.grammar.specs.Reader.{is_sign, is_word, head_is};
ghost use Rattle.text.specs.Cut.{part, tokens_at, number_of};
ghost use Rattle.text.specs.Found.{Taken, NameTaken, NumberTaken, Valued, Linked, SignLinked, level_of, left_of};

use crate::nodes::Span;
use crate::parts::Parsed;
use crate::tokens::{Place, Sign, Source, Tok};
use octets::part_of;

// The operators between two expressions.
#[derive(Clone, Copy)]
pub enum Infix {
    Or,
    And,
    Equal,
    Differs,
    Below,
    Above,
    AtMost,
    AtLeast,
    Plus,
    Minus,
    Concat,
    Times,
}

impl Infix {
    #[tactic(auto, unfolding(grammar::specs::Reader::joint, grammar::specs::Reader::joint_in, grammar::specs::Reader::is_word, grammar::specs::Reader::is_sign))]
    fn of(sign: Sign) -> Option<Infix>
        ensures { SignLinked (number_of sign) result }
    {
        match sign {
            Sign::Equal => Some(Infix::Equal),
            Sign::Differs => Some(Infix::Differs),
            Sign::Below => Some(Infix::Below),
            Sign::Above => Some(Infix::Above),
            Sign::AtMost => Some(Infix::AtMost),
            Sign::AtLeast => Some(Infix::AtLeast),
            Sign::Plus => Some(Infix::Plus),
            Sign::Minus => Some(Infix::Minus),
            Sign::Joined => Some(Infix::Concat),
            Sign::Times => Some(Infix::Times),
            Sign::Open | Sign::Close | Sign::Comma | Sign::Dot => None,
        }
    }

    // From the loosest: 0 or, 1 and, 2 not, 3 comparisons, 4 sums, 5 products, 6 minus before, 7 the smallest.
    pub fn level(self) -> u8
        ensures { result ≡ level_of self }
    {
        match self {
            Infix::Or => 0,
            Infix::And => 1,
            Infix::Plus | Infix::Minus | Infix::Concat => 4,
            Infix::Times => 5,
            _ => 3,
        }
    }

    // The level that its left side has to have: comparisons don't chain.
    pub fn left(self) -> u8
        ensures { result ≡ left_of self }
    {
        match self {
            Infix::Or => 0,
            Infix::And => 1,
            Infix::Times => 5,
            _ => 4,
        }
    }
}

const KEYWORDS: [&[u8]; 43] = [
    b"select",
    b"distinct",
    b"from",
    b"where",
    b"group",
    b"by",
    b"having",
    b"order",
    b"asc",
    b"desc",
    b"limit",
    b"offset",
    b"and",
    b"or",
    b"not",
    b"is",
    b"null",
    b"exists",
    b"count",
    b"sum",
    b"min",
    b"max",
    b"create",
    b"table",
    b"unique",
    b"index",
    b"on",
    b"drop",
    b"insert",
    b"into",
    b"values",
    b"update",
    b"set",
    b"delete",
    b"begin",
    b"commit",
    b"rollback",
    b"to",
    b"savepoint",
    b"release",
    b"int",
    b"text",
    b"as",
];

// The bytes of a part; past the end there are none.
pub fn bytes_of(text: &[u8], s: Span) -> &[u8]
    ensures { result.now ≡ part text.now s }
{
    part_of(text, s.from as usize, s.len as usize)
}

// Whether two words have the same letters, as far as both go; the second is written in small ones.
fn same_letters(word: &[u8], key: &[u8]) -> bool
    ensures { result ≡ list_all (λ p. to_ascii_lowercase p.0 == p.1) (zip word.now key.now) }
{
    word.iter()
        .zip(key)
        .all(|(letter, small)| letter.to_ascii_lowercase() == *small)
}

// Whether a word is a keyword, which is written in small letters.
fn is_key(word: &[u8], key: &[u8]) -> bool
    ensures { result ≡ same_name (map small word.now) key.now }
{
    word.len() == key.len() && same_letters(word, key)
}

fn is_one_of(word: &[u8], keys: &[&[u8]]) -> bool
    ensures { result ≡ list_any (λ key. same_name (map small word.now) key.now) keys.now }
{
    keys.iter().any(|key| is_key(word, key))
}

fn is_keyword(word: &[u8]) -> bool
    ensures { result ≡ some (same_name (map small word.now)) keywords }
{
    is_one_of(word, &KEYWORDS)
}

// The value of digits, if it is below 2^63.
fn value(digits: &[u8]) -> Option<u64>
    ensures { Valued digits.now result }
{
    let mut value: u64 = 0;
    for digit in digits {
        value = value
            .checked_mul(10)?
            .checked_add(digit.saturating_sub(b'0') as u64)?;
    }
    if value >= 1 << 63 {
        return None;
    }
    Some(value)
}

impl<'a> Source<'a> {
    pub fn take_sign(self, at: Place, sign: Sign) -> Option<Place>
        ensures { Taken (is_sign (number_of sign)) self.entry.bytes.now (tokens_at self.entry.bytes.now at) result }
    {
        let Tok::Sign(found) = at.tok else {
            return None;
        };
        if found != sign {
            return None;
        }
        Some(self.next(at.rest))
    }

    // Whether a keyword stands at a place.
    pub fn has_key(self, at: Place, key: &[u8]) -> bool
        ensures { result ≡ head_is (is_word key.now) (tokens_at self.entry.bytes.now at) }
    {
        match at.tok {
            Tok::Word(word) => is_key(bytes_of(self.bytes, word), key),
            _ => false,
        }
    }

    pub fn take_key(self, at: Place, key: &[u8]) -> Option<Place>
        ensures { Taken (is_word key.now) self.entry.bytes.now (tokens_at self.entry.bytes.now at) result }
    {
        if !self.has_key(at, key) {
            return None;
        }
        Some(self.next(at.rest))
    }

    pub fn take_name(self, at: Place) -> Option<Parsed<Span>>
        ensures { NameTaken self.entry.bytes.now (tokens_at self.entry.bytes.now at) result }
    {
        let Tok::Word(value) = at.tok else {
            return None;
        };
        if is_keyword(bytes_of(self.bytes, value)) {
            return None;
        }
        Some(Parsed {
            value,
            after: self.next(at.rest),
        })
    }

    pub fn take_number(self, at: Place) -> Option<Parsed<u64>>
        ensures { NumberTaken self.entry.bytes.now (tokens_at self.entry.bytes.now at) result }
    {
        let Tok::Number(digits) = at.tok else {
            return None;
        };
        let value = value(bytes_of(self.bytes, digits))?;
        Some(Parsed {
            value,
            after: self.next(at.rest),
        })
    }

    // The operator at a place.
    pub fn take_infix(self, at: Place) -> Option<Parsed<Infix>>
        ensures { Linked self.entry.bytes.now (tokens_at self.entry.bytes.now at) result }
    {
        if let Tok::Sign(sign) = at.tok {
            let value = Infix::of(sign)?;
            return Some(Parsed {
                value,
                after: self.next(at.rest),
            });
        }
        if let Some(after) = self.take_key(at, b"or") {
            return Some(Parsed {
                value: Infix::Or,
                after,
            });
        }
        let after = self.take_key(at, b"and")?;
        Some(Parsed {
            value: Infix::And,
            after,
        })
    }
}
