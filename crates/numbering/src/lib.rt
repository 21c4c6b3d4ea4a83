// Numbers for the places of a table of routes: in the column of the places where routes lead to, and then of those where they
// start, a place's number is the index where it stands first. Places are looked for in a table of slots, so one pass numbers all.
#![tactic(auto)]

ghost use Rattle.std.specs.Prelude.{◌≡◌, ◌+◌, ◌<◌, ◌≤◌, List, length, get_or, ◌++◌, ℕ};
ghost use Rattle.numbering.specs.Numbers.{FirstAt, NumbersOf};
ghost use Rattle.numbering.specs.Slots.{slot_count, slot_of, Stops, Laid};

use std::marker::Model;

// How many slots places are spread over.
const SLOTS: usize = 256;

// What a place is multiplied by: the usual number of multiplicative hashing, a prime near 2^32 divided by the golden ratio.
const SPREADER: u64 = 2654435761;

// 2^24: the bits of the product below it are dropped.
const DROPPED: u64 = 16777216;

// Where the search for a place begins.
fn slot_of(place: u32) -> usize
    ensures { (result ≡ slot_of place) × (result < slot_count) }
{
    (u64::from(place) * SPREADER / DROPPED % SLOTS as u64) as usize
}

// The column of places: those where routes lead to, and then those where they start.
#[derive(Drop)]
struct Column<'a> {
    tos: &'a [u32],
    froms: &'a [u32],
}

impl<'a> Model for Column<'a> {
    ghost Value = { List ℕ };

    ghost view = { λ c. c.tos.now ++ c.froms.now };
}

impl<'a> Column<'a> {
    fn len(&self) -> usize
        requires { length self.now < slot_count }
        ensures { result ≡ length self.now }
    {
        self.tos.len() + self.froms.len()
    }

    // Place x.
    fn at(&self, x: usize) -> u32
        requires { x < length self.now }
        ensures { result ≡ get_or self.now x 0 }
    {
        let n = self.tos.len();
        if x < n {
            return self.tos[x];
        }
        self.froms[x - n]
    }

    // The slot of a place: from where its search begins the first that holds the place or is empty. `i` places are laid.
    fn seek(&self, slots: &[u8; SLOTS], i: usize, place: u32) -> usize
        requires { Laid self.now slots.now i × (i ≤ length self.now) × (i < slot_count) }
        ensures { Stops self.now slots.now place result }
    {
        let mut at = slot_of(place);
        for _tries in 0..SLOTS {
            let key = usize::from(slots[at]);
            if key == 0 {
                return at;
            }
            if self.at(key - 1) == place {
                return at;
            }
            at = (at + 1) % SLOTS;
        }
        at
    }

    // The number of place i; the place is laid where it is new.
    fn enter(&self, slots: &mut [u8; SLOTS], i: usize) -> usize
        requires { Laid self.now slots.old i × (i < length self.now) × (length self.now < slot_count) }
        ensures { FirstAt self.now i result × Laid self.now slots.new (i + 1) }
    {
        let at = self.seek(&*slots, i, self.at(i));
        let key = usize::from(slots[at]);
        if key == 0 {
            slots[at] = (i + 1) as u8;
            return i;
        }
        key - 1
    }
}

// The numbers of the places where routes lead to, and then of those where they start. What was lent past them stays as it was.
pub fn number_all(tos: &[u32], froms: &[u32], numbers: &mut [u8])
    requires { (length tos.now + length froms.now < slot_count) × (length tos.now + length froms.now ≤ length numbers.old) }
    ensures { NumbersOf (tos.now ++ froms.now) numbers.old numbers.new }
{
    let column = Column { tos, froms };
    let mut slots = [0u8; SLOTS];
    for i in 0..column.len() {
        numbers[i] = column.enter(&mut slots, i) as u8;
    }
}
