// The place of a signal in the constant table, from its number: numbers go by the hundred, a hundred for each table of the standard.
// A const array is built anew at every read, so a caller that asks for many signals holds the columns and lends them, or has them in one value (`Widths`, `SignalStarts`). Numbers
// and places are computed in 32 bits, which is what most gateways have.
ghost use Rattle.std.specs.Prelude.{◌≡◌, ◌<◌};
ghost use Rattle.catalogue.specs.Places.{number_limit, hundred, surpluses, bounds, Placed};

// How many hundreds there are with signals in them, or below one that has.
pub const HUNDREDS: usize = 20;

// How many places there are.
pub const PLACES: usize = 199;

// The places of the checksum, 503, and of the counter, 504: the two signals that have a start of their own.
pub const CHECKSUM_PLACE: usize = 49;

pub const COUNTER_PLACE: usize = 50;

const NUMBER_LIMIT: u32 = 2000;

// What the numbers of a hundred's signals have more than their places.
pub(crate) const SURPLUSES: [u32; HUNDREDS] = [
    0, 101, 201, 291, 362, 454, 539, 634, 724, 816, 909, 1006, 1101, 1175, 1268, 1368, 1462, 1556,
    1643, 1729,
];

// The place where they end.
pub(crate) const BOUNDS: [u8; HUNDREDS] = [
    0, 0, 10, 39, 47, 62, 67, 77, 85, 92, 95, 100, 126, 133, 133, 139, 145, 158, 172, 199,
];

pub fn surpluses() -> [u32; HUNDREDS]
    ensures { result ≡ surpluses }
{
    SURPLUSES
}

pub fn bounds() -> [u8; HUNDREDS]
    ensures { result ≡ bounds }
{
    BOUNDS
}

// Of 1 to 100, 101 to 200 and so on, the hundred that a number is in: below the limit a product and a shift tell it.
fn hundred_of(number: u32) -> usize
    requires { number < number_limit }
    ensures { result ≡ hundred number }
{
    (number * 5242 / 524288) as usize
}

// The place of a signal in the table, by its columns.
pub fn place_of(number: u32, above: &[u32], ends: &[u8]) -> Option<usize>
    requires { (above.now ≡ surpluses) × (ends.now ≡ bounds) }
    ensures { Placed number result }
{
    if number >= NUMBER_LIMIT {
        return None;
    }
    let hundred = hundred_of(number);
    let place = number - above[hundred];
    if place >= u32::from(ends[hundred]) {
        return None;
    }
    Some(place as usize)
}
