// Refusals by their numbers.
ghost use Rattle.std.specs.Prelude.{◌≡◌};
ghost use Rattle.session.specs.Refusal.{number_of, told};

// Why a call was refused; nothing has changed then.
#[derive(Clone, Copy, Debug, PartialEq, Eq)]
pub enum Refusal {
    // the text is no statement
    Unread,
    // the text is longer than a statement may be
    TooMuch,
    // the text is a statement that is not built
    NotBuilt,
    // no query runs, so there is no next row
    NoQuery,
}

// The number that people see.
impl From<Refusal> for u8 {
    ghost from_gives = { λ refusal result. result ≡ number_of refusal };

    fn from(refusal: Refusal) -> u8 {
        match refusal {
            Refusal::Unread => 1,
            Refusal::TooMuch => 10,
            Refusal::NotBuilt => 12,
            Refusal::NoQuery => 13,
        }
    }
}

// A text was not read.
impl From<text::Refusal> for Refusal {
    ghost from_gives = { λ unread result. result ≡ told unread };

    fn from(unread: text::Refusal) -> Refusal {
        match unread {
            text::Refusal::Unread => Refusal::Unread,
            text::Refusal::TooLong => Refusal::TooMuch,
        }
    }
}
