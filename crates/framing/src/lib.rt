// What reading and packing a frame answer. specs/ says what a frame reads as and what is packed, over the messages of a
// book; proofs/ has the laws, with the two ways between reading and packing. The code is in the crate `frames`.
#![tactic(auto)]

ghost use Rattle.std.specs.Prelude.{◌≡◌};
ghost use Rattle.framing.specs.Reading.{read_refusal_number};
ghost use Rattle.framing.specs.Packing.{pack_refusal_number};

// Why a frame isn't read.
#[derive(Clone, Copy, PartialEq, Eq)]
pub enum ReadRefusal {
    // The message and signal tables are those of no taken book.
    NotABook,
    // The frame is not 8 bytes.
    NotEightBytes,
    // The book has no message with this identifier.
    UnknownIdentifier,
    // The message places 503, and the frame has not the checksum there.
    WrongChecksum,
    // A lent slice has fewer entries than the message has placements.
    TooLittleRoom,
}

// Document 01's number of the refusal.
impl From<ReadRefusal> for u32 {
    ghost from_gives = { λ why number. number ≡ read_refusal_number why };

    fn from(why: ReadRefusal) -> u32 {
        match why {
            ReadRefusal::NotABook => 12,
            ReadRefusal::NotEightBytes => 21,
            ReadRefusal::UnknownIdentifier => 22,
            ReadRefusal::WrongChecksum => 23,
            ReadRefusal::TooLittleRoom => 24,
        }
    }
}

// Why a frame isn't packed.
#[derive(Clone, Copy, PartialEq, Eq)]
pub enum PackRefusal {
    // As in reading.
    NotABook,
    UnknownIdentifier,
    // There are not as many values as placements.
    WrongCountOfValues,
    // The lent frame is not 8 bytes.
    NotEightBytes,
    // A raw count is too wide for its signal.
    TooWide,
    // A raw count is reserved or outside.
    ReservedOrOutside,
}

// Document 01's number of the refusal.
impl From<PackRefusal> for u32 {
    ghost from_gives = { λ why number. number ≡ pack_refusal_number why };

    fn from(why: PackRefusal) -> u32 {
        match why {
            PackRefusal::NotABook => 12,
            PackRefusal::UnknownIdentifier => 22,
            PackRefusal::WrongCountOfValues => 25,
            PackRefusal::NotEightBytes => 21,
            PackRefusal::TooWide => 26,
            PackRefusal::ReservedOrOutside => 27,
        }
    }
}
