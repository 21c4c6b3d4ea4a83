// The signals of one message: whether one stands where it may, and whether all of them do.
#![tactic(auto)]

ghost use Rattle.std.specs.Prelude.{◌≡◌, Bool, List, ℕ, ◌-◌, ◌≤◌, ◌<◌, length};
ghost use Rattle.rows.specs.Rule.{most_bits};
ghost use Rattle.catalogue.specs.Find.{bits_of_spec};
ghost use Rattle.catalogue.specs.Places.{StartColumns};
ghost use Rattle.books.specs.Belonging.{in_run};
ghost use Rattle.books.specs.Book.{placement};
ghost use Rattle.books.specs.Lines.{is_in, misplaced, frame_bits};
ghost use Rattle.books.specs.Words.{side_by_side};
ghost use Rattle.masks.specs.Bit.{bit};
ghost use Rattle.placing.specs.Placing.{FrameRoom};
ghost use Rattle.placing.specs.Filling.{Marks, FilledMore};
ghost use Rattle.placing.specs.Stamps.{at_fixed_start, Below, stamped_test};
ghost use Rattle.record.specs.Limits.{start_limit};

use catalogue::{CHECKSUM_PLACE, COUNTER_PLACE, PLACES};
use record::{CHECKSUM, CHECKSUM_START, COUNTER, COUNTER_START};

const FRAME_BITS: u32 = 64;

// Ones in every bit of a frame.
const ALL_BITS: u64 = 0xffff_ffff_ffff_ffff;

// The stamp on the places of the two signals that have a start of their own: no message has it, and it is above all that they have.
pub const FIXED_STAMP: u8 = 255;

// How many marks there are, by which numbers are told apart quickly: as many as a mask has.
const MARKS: u32 = masks::WIDTH as u32;

// Whether a signal of the catalogue stands where it may not, by itself.
pub fn is_misplaced(number: u32, start: u32, bits: u32) -> bool
    requires { (start < start_limit) × (bits ≤ most_bits) × (bits ≡ bits_of_spec number) }
    ensures { result ≡ misplaced (placement number start) }
{
    if start + bits > FRAME_BITS {
        return true;
    }
    if number == CHECKSUM {
        return start != CHECKSUM_START;
    }
    if number == COUNTER {
        return start != COUNTER_START;
    }
    false
}

// A mask of the frame bits of a signal.
pub fn run(start: u32, bits: u32) -> u64
    requires { FrameRoom start bits }
    ensures { (k : ℕ) → bit result k ≡ in_run start bits k }
{
    (ALL_BITS >> (FRAME_BITS - bits)) << start
}

// The same by the last start that its bits leave it: they are as many as a frame has from there on.
fn run_up_to(start: u32, last: u32) -> u64
    requires { (start ≤ last) × (last < frame_bits) }
    ensures { (k : ℕ) → bit result k ≡ in_run start (frame_bits - last) k }
{
    (ALL_BITS >> last) << start
}

// What the signals of a message fill: a mask of their frame bits, and one of their numbers' marks.
#[derive(Clone, Copy)]
pub struct Filled {
    pub bits: u64,
    pub marks: u64,
}

impl Filled {
    // What no signal fills.
    pub fn new() -> Self
        ensures { (result.bits ≡ 0) × (result.marks ≡ 0) }
    {
        Filled { bits: 0, marks: 0 }
    }

    // What they fill with one signal more.
    pub fn with_signal(self, number: u32, start: u32, bits: u32) -> Self
        requires { FrameRoom start bits }
        ensures { FilledMore self number start bits result }
    {
        let bits_here = run(start, bits);
        Filled {
            bits: masks::either(self.bits, bits_here),
            marks: masks::with(self.marks, number % MARKS),
        }
    }

    // Whether a number stands among those whose marks are filled: they are looked at only where one of them has the same mark.
    pub fn is_repeated(self, numbers: &[u32], number: u32) -> bool
        requires { Marks numbers.now self.marks }
        ensures { result ≡ is_in number numbers.now }
    {
        masks::has(self.marks, number % MARKS) && columns::holds(numbers, number)
    }
}

// Whether a place is that of a signal with a start of its own, and this is the start.
fn has_fixed_start(place: usize, start: u32) -> bool
    ensures { result ≡ at_fixed_start place start }
{
    if place == CHECKSUM_PLACE {
        return start == CHECKSUM_START;
    }
    if place == COUNTER_PLACE {
        return start == COUNTER_START;
    }
    false
}

// Whether all signals of a message stand where they may: each by itself, none twice, and no bits that meet.
// The columns of the catalogue are lent, and a stamp for each of its places: that of this message, which is above all that messages
// left there, is put on the place of each signal passed. The two signals that have a start of their own need none: at that start a
// second one meets the first. Their places have a stamp that no message's is above, so only they, and a signal that comes again, are
// looked at twice.
pub fn well_placed(
    numbers: &[u32],
    starts: &[u32],
    above: &[u32],
    ends: &[u8],
    lasts: &[u8],
    stamps: &mut [u8; PLACES],
    stamp: u8,
) -> bool
    requires { (length starts.now ≡ length numbers.now) × StartColumns above.now ends.now lasts.now × Below stamps.old stamp }
    ensures { ◌≡◌ {A = Bool × List ℕ} (result, stamps.new) (stamped_test (side_by_side numbers.now starts.now) stamp stamps.old) }
{
    let mut filled: u64 = 0;
    for (at, &number) in numbers.iter().enumerate() {
        let start = starts[at];
        let Some(place) = catalogue::place_of(number, above, ends) else {
            return false;
        };
        let last = u32::from(lasts[place]);
        if start > last {
            return false;
        }
        let here = run_up_to(start, last);
        if masks::meet(filled, here) {
            return false;
        }
        if stamps[place] < stamp {
            stamps[place] = stamp;
        } else if !has_fixed_start(place, start) {
            return false;
        }
        filled = masks::either(filled, here);
    }
    true
}
