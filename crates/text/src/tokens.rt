// Tokens cut from the bytes, one at a time.
ghost use Rattle.std.specs.Prelude.{◌≡◌, ◌+◌, ◌<◌, ◌≤◌, true, false, [], ◌∷◌, length, take, drop, MatchOption, IfOk, IfErr, slice_index};
ghost use Rattle.meaning.specs.Text.{tokens, Between, InQuotes, Wrong as Faulty, Quoted as Quote, letter, digit, spaces, is_in};
ghost use Rattle.text.specs.declared.parts.Refusal.{Refusal};
ghost use Rattle.text.specs.Cut.{RunBy, space, tokens_at, undoubled, Opens};

use crate::nodes::Span;
use crate::parts::Refusal;
use octets::byte_at;

#[derive(Clone, Copy, PartialEq, Eq)]
pub enum Sign {
    Open,
    Close,
    Comma,
    Dot,
    Times,
    Plus,
    Minus,
    Equal,
    Below,
    AtMost,
    Differs,
    Above,
    AtLeast,
    Joined,
}

// A token: a part of the bytes, but for the signs.
#[derive(Clone, Copy)]
pub enum Tok {
    Word(Span),
    Number(Span),
    // what stands between the quotes, with its quotes doubled
    Quoted(Span),
    Sign(Sign),
    Wrong,
    End,
}

// A place in the bytes: the token there, and where the bytes after it begin.
#[derive(Clone, Copy)]
pub struct Place {
    pub tok: Tok,
    pub rest: u16,
}

// The bytes of a statement, which is not too long.
#[derive(Clone, Copy)]
pub struct Source<'a> {
    pub bytes: &'a [u8],
    ghost short: { length bytes.now ≤ 4096 },
}

fn is_letter(b: u8) -> bool
    ensures { result ≡ letter b }
{
    b.is_ascii_alphabetic() || b == b'_'
}

fn is_digit(b: u8) -> bool
    ensures { result ≡ digit b }
{
    b.is_ascii_digit()
}

fn is_space(b: u8) -> bool
    ensures { result ≡ is_in b spaces }
{
    matches!(b, b' ' | b'\t' | b'\n' | b'\r')
}

// How many bytes of a kind stand at the front.
fn run_len<F: Fn(u8) -> bool>(bytes: &[u8], is_kind: F) -> usize
    requires { F.IsAlwaysCallable is_kind }
    ensures { RunBy (F.post is_kind) bytes.now result }
{
    bytes
        .iter()
        .position(|&b| !is_kind(b))
        .unwrap_or(bytes.len())
}

// How many bytes stand before the closing quote.
// kept: (d) counts by hand, as two quotes are one step: an iterator that looks ahead at the next byte is no plainer.
fn quoted_len(s: &[u8]) -> Option<usize>
    ensures { MatchOption result (tokens (InQuotes []) s.now ≡ Faulty ∷ []) (λ n. (n < length s.now) × (tokens (InQuotes []) s.now ≡ Quote (undoubled false (take n s.now)) ∷ tokens Between (drop (n + 1) s.now))) }
{
    let mut n = 0;
    while n < s.len() {
        if s[n] != b'\'' {
            n += 1;
        } else if n + 1 < s.len() && s[n + 1] == b'\'' {
            n += 2;
        } else {
            return Some(n);
        }
    }
    None
}

// The bytes from a place on; past the end there are none.
fn bytes_from(bytes: &[u8], from: usize) -> &[u8]
    ensures { result.now ≡ drop from bytes.now }
{
    bytes.get(from..).unwrap_or(&[])
}

fn span(from: usize, len: usize) -> Span
    requires { (from ≤ 4096) × (len ≤ 4096) }
    ensures { (result.from ≡ from) × (result.len ≡ len) }
{
    Span {
        from: from as u16,
        len: len as u16,
    }
}

fn found(tok: Tok, rest: usize) -> Place
    requires { rest ≤ 4098 }
    ensures { (result.tok ≡ tok) × (result.rest ≡ rest) }
{
    Place {
        tok,
        rest: rest as u16,
    }
}

impl<'a> Source<'a> {
    pub fn new(bytes: &'a [u8]) -> Result<Source<'a>, Refusal>
        ensures ok { IfOk result (λ s. s.bytes.now ≡ bytes.now) }
        ensures err { IfErr result (λ e. (e ≡ Refusal.TooLong) × (4096 < length bytes.now)) }
    {
        if bytes.len() > 4096 {
            return Err(Refusal::TooLong);
        }
        Ok(Source { bytes })
    }

    fn word_at(self, at: usize) -> Place
        requires { (at < length self.bytes.now) × (letter (slice_index self.bytes.now at) ≡ true) }
        ensures { tokens_at self.entry.bytes.now result ≡ tokens Between (drop at self.entry.bytes.now) }
    {
        let len = run_len(bytes_from(self.bytes, at), |b| is_letter(b) || is_digit(b));
        found(Tok::Word(span(at, len)), at + len)
    }

    // Digits, and no letter after them.
    fn number_at(self, at: usize) -> Place
        requires { (at < length self.bytes.now) × (digit (slice_index self.bytes.now at) ≡ true) }
        ensures { tokens_at self.entry.bytes.now result ≡ tokens Between (drop at self.entry.bytes.now) }
    {
        let len = run_len(bytes_from(self.bytes, at), is_digit);
        let rest = at + len;
        if is_letter(byte_at(self.bytes, rest)) {
            return found(Tok::Wrong, rest);
        }
        found(Tok::Number(span(at, len)), rest)
    }

    fn quoted_at(self, at: usize) -> Place
        requires { (at < length self.bytes.now) × (slice_index self.bytes.now at ≡ 39) }
        ensures { tokens_at self.entry.bytes.now result ≡ tokens Between (drop at self.entry.bytes.now) }
    {
        let Some(len) = quoted_len(bytes_from(self.bytes, at + 1)) else {
            return found(Tok::Wrong, self.bytes.len());
        };
        found(Tok::Quoted(span(at + 1, len)), at + len + 2)
    }

    // A sign of one byte or two; any other byte, and a lone bar, is no token.
    fn sign_at(self, at: usize) -> Place
        requires { (at < length self.bytes.now) × Opens (slice_index self.bytes.now at) }
        ensures { tokens_at self.entry.bytes.now result ≡ tokens Between (drop at self.entry.bytes.now) }
    {
        let (tok, len) = match (self.bytes[at], byte_at(self.bytes, at + 1)) {
            (b'(', _) => (Tok::Sign(Sign::Open), 1),
            (b')', _) => (Tok::Sign(Sign::Close), 1),
            (b',', _) => (Tok::Sign(Sign::Comma), 1),
            (b'.', _) => (Tok::Sign(Sign::Dot), 1),
            (b'*', _) => (Tok::Sign(Sign::Times), 1),
            (b'+', _) => (Tok::Sign(Sign::Plus), 1),
            (b'-', _) => (Tok::Sign(Sign::Minus), 1),
            (b'=', _) => (Tok::Sign(Sign::Equal), 1),
            (b'<', b'=') => (Tok::Sign(Sign::AtMost), 2),
            (b'<', b'>') => (Tok::Sign(Sign::Differs), 2),
            (b'<', _) => (Tok::Sign(Sign::Below), 1),
            (b'>', b'=') => (Tok::Sign(Sign::AtLeast), 2),
            (b'>', _) => (Tok::Sign(Sign::Above), 1),
            (b'|', b'|') => (Tok::Sign(Sign::Joined), 2),
            _ => (Tok::Wrong, 1),
        };
        found(tok, at + len)
    }

    // The token at a place where no space stands.
    fn cut(self, at: usize) -> Place
        requires { (at < length self.bytes.now) × (space (slice_index self.bytes.now at) ≡ false) }
        ensures { tokens_at self.entry.bytes.now result ≡ tokens Between (drop at self.entry.bytes.now) }
    {
        let b = self.bytes[at];
        if is_letter(b) {
            return self.word_at(at);
        }
        if is_digit(b) {
            return self.number_at(at);
        }
        if b == b'\'' {
            return self.quoted_at(at);
        }
        self.sign_at(at)
    }

    // The first token from a place on.
    pub fn next(self, from: u16) -> Place
        ensures { tokens_at self.entry.bytes.now result ≡ tokens Between (drop from self.entry.bytes.now) }
    {
        let from = from as usize;
        let rest = bytes_from(self.bytes, from);
        let len = run_len(rest, is_space);
        if len < rest.len() {
            return self.cut(from + len);
        }
        found(Tok::End, self.bytes.len())
    }
}
