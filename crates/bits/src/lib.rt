// The bits of a frame of eight bytes: a signal's count taken from its place and put there, and the checksum.
//
// A frame is loaded once into a word, byte 0 lowest, and stored once. What a word's bits mean for the frame is in
// specs/Frame.antt, and proofs/Weights.antt that they are the frame's; proofs/Placing.antt has the laws: what is put is read
// back, a place beside it stays.
// These functions serve the crates of this repository; a start and a width that lie within the frame are required.
#![tactic(auto)]

ghost use Rattle.std.specs.Prelude.{◌≡◌, ◌+◌, ◌%◌, ◌^◌, ◌<◌, length};
ghost use Rattle.bits.specs.Frame.{frame_bytes, frame_bits};
ghost use Rattle.bits.specs.Word.{Fits, word_of, bytes_of, field_of, placed};
ghost use Rattle.bits.specs.Checksum.{checksum_of, bytes_added_spec, identifier_added_spec, folded};

// Eight bytes as one number, byte 0 lowest.
pub fn load(frame: &[u8]) -> u64
    requires { length frame.now ≡ frame_bytes }
    ensures { result ≡ word_of frame.now }
{
    u64::from_le_bytes([
        frame[0], frame[1], frame[2], frame[3], frame[4], frame[5], frame[6], frame[7],
    ])
}

// The window of 32 bits that begins at `start`; those past the frame are 0.
pub fn window(word: u64, start: u32) -> u32
    requires { start < frame_bits }
    ensures { result ≡ field_of word start 32 }
{
    ((word >> start) % 4294967296) as u32
}

// The count of `bits` bits at `start`: of the 32 bits from there on, those past the count are shifted out.
pub fn take(word: u64, start: u32, bits: u32) -> u32
    requires { Fits start bits }
    ensures { result ≡ field_of word start bits }
{
    let past = 32 - bits;
    (window(word, start) << past) >> past
}

// `word` with `count` in place of the `bits` bits at `start`.
pub fn place(word: u64, start: u32, bits: u32, count: u32) -> u64
    requires { Fits start bits × (count < 2 ^ bits) }
    ensures { result ≡ placed word start bits count }
{
    let old = u64::from(take(word, start, bits));
    word - (old << start) + (u64::from(count) << start)
}

// The eight bytes of a number into a lent frame, the lowest first.
pub fn store(word: u64, frame: &mut [u8])
    requires { length frame.old ≡ frame_bytes }
    ensures { frame.new ≡ bytes_of word }
{
    for (i, byte) in word.to_le_bytes().iter().enumerate() {
        frame[i] = *byte;
    }
}

// Bytes 0 to 6 and the low four bits of byte 7, added up.
fn bytes_added(word: u64) -> u64
    ensures { (result ≡ bytes_added_spec (bytes_of word)) × (result < 2 ^ 11) }
{
    let bytes = word.to_le_bytes();
    u64::from(bytes[0])
        + u64::from(bytes[1])
        + u64::from(bytes[2])
        + u64::from(bytes[3])
        + u64::from(bytes[4])
        + u64::from(bytes[5])
        + u64::from(bytes[6])
        + u64::from(bytes[7] % 16)
}

// The four bytes of an identifier, added up.
fn identifier_added(identifier: u32) -> u64
    ensures { (result ≡ identifier_added_spec identifier) × (result < 2 ^ 10) }
{
    let bytes = identifier.to_be_bytes();
    u64::from(bytes[0]) + u64::from(bytes[1]) + u64::from(bytes[2]) + u64::from(bytes[3])
}

fn fold(sum: u64) -> u32
    requires { sum < 2 ^ 12 }
    ensures { (result ≡ folded sum) × (result < 8) }
{
    ((sum / 64 % 4 + sum / 8 + sum) % 8) as u32
}

// The checksum of a frame, given as its word, under an identifier. It is at most 7.
pub fn checksum(identifier: u32, word: u64) -> u32
    ensures { (result ≡ checksum_of identifier (bytes_of word)) × (result < 8) }
{
    fold(bytes_added(word) + identifier_added(identifier))
}
