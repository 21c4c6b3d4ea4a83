// Which places each route leads on to, for a table of routes between numbered places: each number has a mask of the numbers that
// chains lead to from it, and routes hand on what they lead to until nothing is new.
#![tactic(auto)]

ghost use Rattle.std.specs.Prelude.{◌≡◌, ◌<◌, ◌≤◌, length};
ghost use Rattle.reach.specs.Led.{Numbers, OnwardFilled, turn};
ghost use Rattle.reach.specs.Handing.{Real, Handing, Settled};

// How many numbers there can be: each route has two places.
pub const NUMBERS: usize = 128;

// A table of routes between numbered places: the numbers where they start, and those they lead to.
#[derive(Clone, Copy)]
pub struct NumberedRoutes<'a> {
    pub starts: &'a [u8],
    pub ends: &'a [u8],
    pub ghost numbers: { Numbers starts.now ends.now },
}

// The route at turn t, where all are passed upwards or downwards.
// Kept: the new form is no plainer: an order that is passed in as an iterator or a closure would need a clause on which routes come,
// and in what order, which `turn` and `down` say here.
pub fn nth(t: usize, n: usize, down: bool) -> usize
    requires { t < n }
    ensures { (result ≡ turn n down t) × (result < n) }
{
    if down {
        return n - 1 - t;
    }
    t
}

// Route j hands on, to the number where it starts, the number that it leads to and all of that one's. Whether that was new.
fn hand(table: &NumberedRoutes<'_>, j: usize, masks: &mut [u64; NUMBERS]) -> bool
    requires { j < length table.now.starts.now }
    ensures { Handing table.now.starts.now table.now.ends.now (λ i. i ≡ j) masks.old masks.new result }
{
    let end = usize::from(table.ends[j]);
    let start = usize::from(table.starts[j]);
    let had = masks[start];
    let has = masks::either(had, masks::with(masks[end], end as u32));
    masks[start] = has;
    has != had
}

// All routes hand on, the last first where `down`. Whether anything was new.
fn pass(table: &NumberedRoutes<'_>, down: bool, masks: &mut [u64; NUMBERS]) -> bool
    ensures { Handing table.now.starts.now table.now.ends.now (λ i. i < length table.now.starts.now) masks.old masks.new result }
{
    let n = table.starts.len();
    let mut new = false;
    for t in 0..n {
        new |= hand(table, nth(t, n, down), &mut *masks);
    }
    new
}

// Passes down and up in turn until nothing is new. A table in book order takes two. The masks are lent, since an array that is
// returned stands on the stack twice.
fn settle(table: &NumberedRoutes<'_>, masks: &mut [u64; NUMBERS])
    requires { Real table.now.starts.now table.now.ends.now masks.old }
    ensures { Settled table.now.starts.now table.now.ends.now masks.new }
{
    let mut down = true;
    let mut new = true;
    while new {
        new = pass(table, down, &mut *masks);
        down = !down;
    }
}

// For each route, the numbers it leads on to. What was lent past them stays as it was.
pub fn fill(table: &NumberedRoutes<'_>, onward: &mut [u64])
    requires { length table.now.starts.now ≤ length onward.old }
    ensures { OnwardFilled table.now.starts.now table.now.ends.now onward.old onward.new }
{
    let mut masks = [0u64; NUMBERS];
    settle(table, &mut masks);
    for (i, e) in table.ends.iter().enumerate() {
        let end = usize::from(*e);
        onward[i] = masks::with(masks[end], end as u32);
    }
}
