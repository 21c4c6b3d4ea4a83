// One column of a book: a part of it, where a message's part begins, whether a number stands in it, and whether identifiers repeat.
#![tactic(auto)]

ghost use Rattle.std.specs.Prelude.{◌≡◌, [], ◌∷◌, ◌-◌, ◌≤◌, ◌<◌, length, get_or, take, drop};
ghost use Rattle.books.specs.Lines.{is_in};
ghost use Rattle.record.specs.Limits.{signal_limit};
ghost use Rattle.columns.specs.Identifiers.{distinct_after};
ghost use Rattle.columns.specs.Slots.{identifier_slots, identifier_slot};

use record::IDENTIFIER_LIMIT;

// How many slots there are, and the largest prime below their count.
const SLOTS: usize = 256;

const SLOT_PRIME: u32 = 251;

// How many entries a column of a book, or a part of one, has. A loop that counts up to it does so in 32 bits, which is what most
// gateways have.
pub fn length_of(column: &[u32]) -> u32
    requires { length column.now ≤ signal_limit }
    ensures { result ≡ length column.now }
{
    column.len() as u32
}

// The entries from `first` on, up to `end`.
pub fn part(column: &[u32], first: usize, end: usize) -> &[u32]
    requires { (first ≤ end) × (end ≤ length column.now) }
    ensures { (result.now ≡ take (end - first) (drop first column.now)) × (length result.now ≡ end - first) }
{
    &column[first..end]
}

// Where the signals of the message at a place begin, by the ends of all: where the message before it ends.
pub fn begin(ends: &[u32], at: usize) -> usize
    requires { at < length ends.now }
    ensures { result ≡ get_or (0 ∷ ends.now) at 0 }
{
    if at == 0 {
        return 0;
    }
    ends[at - 1] as usize
}

// Whether `number` stands in the column.
pub fn holds(column: &[u32], number: u32) -> bool
    ensures { result ≡ is_in number column.now }
{
    column.contains(&number)
}

// The slot of an identifier: a remainder, so that neighbours fall into different ones.
fn slot(identifier: u32) -> usize
    ensures { (result ≡ identifier_slot identifier) × (result < identifier_slots) }
{
    (identifier % SLOT_PRIME) as usize
}

// Whether the identifiers are within the limit, and none stands there twice.
// An identifier is looked for among those before it only where one of them fell into the same slot.
pub fn distinct(ids: &[u32]) -> bool
    ensures { result ≡ distinct_after [] ids.now }
{
    let mut used = [false; SLOTS];
    for (at, &identifier) in ids.iter().enumerate() {
        if identifier >= IDENTIFIER_LIMIT {
            return false;
        }
        let place = slot(identifier);
        if used[place] {
            if holds(&ids[..at], identifier) {
                return false;
            }
        }
        used[place] = true;
    }
    true
}
