// The route tables of a lent book: the test that they are such as a taken book can have, which every call on routes makes first
// (refusal 12). proofs/ shows that it is exact: it passes just where some text is taken with those tables.
#![tactic(auto)]

ghost use Rattle.chains.specs.Tells.{Tells};
ghost use Rattle.route_tables.specs.Tables.{RoutesTaken};

use record::{BOOK_WORDS, ROUTES, first};
use zeros::zero_past;

// Whether the route tables are those of a taken book.
pub fn routes_taken(book: &[u32; BOOK_WORDS]) -> bool
    ensures { Tells (RoutesTaken book.now) result }
{
    let n = record::route_count(book) as usize;
    if n > ROUTES {
        return false;
    }
    let froms = record::froms(book);
    let tos = record::tos(book);
    if !zero_past(froms, n) {
        return false;
    }
    if !zero_past(tos, n) {
        return false;
    }
    gateway_checker::sound(first(froms, n), first(tos, n))
}
