// What the reader of a route book answers. specs/Numbers.antt gives document 01's number and values for each case, and
// `u32::from` is that number in code: nothing else in the library turns a refusal of a book into its number.
#![tactic(auto)]

ghost use Rattle.std.specs.Prelude.{◌≡◌};
ghost use Rattle.answers.specs.Numbers.{number};

// Why a text is refused.
#[derive(Clone, Copy, Debug, PartialEq, Eq)]
pub enum Refusal {
    // the text is over its limit
    TooLong,
    // a line's kind, field count or number form, or the last newline missing
    IllFormed,
    // an identifier, bus or start over its limit, or a number that is not in the catalogue
    OverLimit,
    // an S line before any M line
    BeforeAnyMessage,
    // an M identifier that is already there
    MessageRepeated,
    // a signal that is already in its message
    SignalRepeated,
    // start and bits over a frame's 64, or 503 or 504 at a wrong start
    Misplaced,
    // bits that meet an earlier signal of the message
    BitsMeet,
    // one M, S or R line too many
    Full,
    // a closed chain of routes
    ClosedChain,
    // two different chains that join the same two places
    TwoChains,
}

// Document 01's number.
impl From<Refusal> for u32 {
    ghost from_gives = { λ why n. n ≡ number why };

    fn from(why: Refusal) -> u32 {
        match why {
            Refusal::TooLong => 1,
            Refusal::IllFormed => 2,
            Refusal::OverLimit => 3,
            Refusal::BeforeAnyMessage => 4,
            Refusal::MessageRepeated => 5,
            Refusal::SignalRepeated => 6,
            Refusal::Misplaced => 7,
            Refusal::BitsMeet => 8,
            Refusal::Full => 9,
            Refusal::ClosedChain => 10,
            Refusal::TwoChains => 11,
        }
    }
}

// How many M, S and R lines a text has that is taken.
#[derive(Clone, Copy, Debug, PartialEq, Eq)]
pub struct Counts {
    pub messages: u32,
    pub signals: u32,
    pub routes: u32,
}

// Why a text is refused, and at which line.
#[derive(Clone, Copy, Debug, PartialEq, Eq)]
pub struct Refused {
    pub why: Refusal,
    pub line: u32,
}

// A text is taken, or it is refused.
pub type Answer = Result<Counts, Refused>;
