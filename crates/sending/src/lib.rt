// The spread of a place, written out: a place sends along its routes and each route hands on to its place, so the work is
// two functions in a cycle, which ends since the longest chain that remains falls. Each turn of it stands on the stack, so it keeps
// as little as there is: the book and the room, each lent as one address, the place, and the number of a route.
#![tactic(auto)]

ghost use Rattle.std.specs.Prelude.{◌≡◌, ◌<◌, get_or};
ghost use Rattle.record.specs.Columns.{route_count_of};
ghost use Rattle.sending.specs.Writing.{RouteOf, Ready, Written, live_froms, live_tos, spread_in, handed_on};

use record::{BOOK_WORDS, ROUTES};

// The place that a route of the book leads from.
fn from_of(book: &[u32; BOOK_WORDS], route: u32) -> u32
    requires { RouteOf book.now route }
    ensures { result ≡ get_or (live_froms book.now) route 0 }
{
    record::froms(book)[route as usize]
}

// The place that it leads to.
fn to_of(book: &[u32; BOOK_WORDS], route: u32) -> u32
    requires { RouteOf book.now route }
    ensures { result ≡ get_or (live_tos book.now) route 0 }
{
    record::tos(book)[route as usize]
}

// A place sends along its routes, in book order: the spread of `place` goes into the room from `at` on. The answer is the
// entry after it.
#[cycle(hand_on_send)]
pub fn send(book: &[u32; BOOK_WORDS], place: u32, room: &mut [u32; ROUTES], at: u32) -> u32
    requires { Ready book.now (spread_in book.now place) at }
    ensures { Written (spread_in book.now place) room.old at room.new result }
{
    let count = record::route_count(book);
    let mut next = at;
    for i in 0..count {
        if from_of(book, i) == place {
            next = hand_on(book, i, room, next);
        }
    }
    next
}

// A route hands on to the place it leads to: that place, then its spread.
#[cycle(hand_on_send)]
fn hand_on(book: &[u32; BOOK_WORDS], route: u32, room: &mut [u32; ROUTES], at: u32) -> u32
    requires { (route < route_count_of book.now) × Ready book.now (handed_on book.now route) at }
    ensures { Written (handed_on book.now route) room.old at room.new result }
{
    let place = to_of(book, route);
    room[at as usize] = place;
    send(book, place, room, at + 1)
}
