// The gateway's checker: the verdict on a table of routes, found by numbers and masks. What it says is stated over chains, in
// crate `verdict`; how it is found is said only here.
#![tactic(auto)]

ghost use Rattle.std.specs.Prelude.{◌≡◌, ℕ, ◌-◌, ◌<◌, ◌≤◌, length};
ghost use Rattle.chains.specs.Chain.{IsSound};
ghost use Rattle.chains.specs.Tells.{Tells};
ghost use Rattle.masks.specs.Bit.{width, bit};
ghost use Rattle.gateway_checker.specs.Searches.{FirstOf, leads_back, ForksEarlier, StartsAt, begins_by};
ghost use Rattle.verdict.specs.Verdicts.{Judged};

use masks::WIDTH;
use reach::{NUMBERS, NumberedRoutes};
use verdict::Verdict;

// Whether the mask has a number, which may be one that no mask has.
fn among(mask: u64, number: usize) -> bool
    ensures { result ≡ bit mask number }
{
    number < WIDTH && masks::has(mask, number as u32)
}

// The first route that leads on to where it starts.
fn first_loop(table: &NumberedRoutes<'_>, onward: &[u64; WIDTH]) -> Option<usize>
    ensures { FirstOf (leads_back table.now.starts.now onward.now) (length table.now.starts.now) result }
{
    (0..table.starts.len()).find(|i| among(onward[*i], usize::from(table.starts[*i])))
}

// The routes that fork with one of an earlier turn: both start at one place and lead on to one place.
fn forking(table: &NumberedRoutes<'_>, onward: &[u64; WIDTH], down: bool) -> u64
    ensures { (a : ℕ) → Tells (ForksEarlier table.now.starts.now onward.now down (length table.now.starts.now) a) (bit result a) }
{
    let n = table.starts.len();
    let mut seen = [0u64; NUMBERS];
    let mut forks: u64 = 0;
    for t in 0..n {
        let a = reach::nth(t, n, down);
        let start = usize::from(table.starts[a]);
        let earlier = seen[start];
        if masks::meet(earlier, onward[a]) {
            forks = masks::with(forks, a as u32);
        }
        seen[start] = masks::either(earlier, onward[a]);
    }
    forks
}

// The numbers at which routes of the mask start, of those that a mask can have.
fn starts_of(table: &NumberedRoutes<'_>, routes: u64) -> u64
    ensures { (x : ℕ) → Tells (StartsAt table.now.starts.now routes (length table.now.starts.now) x) (bit result x) }
{
    let mut at: u64 = 0;
    for (a, start) in table.starts.iter().enumerate() {
        let start = usize::from(*start);
        if masks::has(routes, a as u32) & (start < WIDTH) {
            at = masks::with(at, start as u32);
        }
    }
    at
}

// The first route that forks or leads on to where one starts that does.
fn first_doubling(onward: &[u64; WIDTH], forks: u64, places: u64, n: usize) -> Option<usize>
    requires { n ≤ width }
    ensures { FirstOf (begins_by onward.now forks places) n result }
{
    (0..n).find(|i| masks::has(forks, *i as u32) | masks::meet(onward[*i], places))
}

// The verdict on a table of routes between numbered places.
fn judge_numbered(table: &NumberedRoutes<'_>) -> Verdict
    ensures { Judged table.now.starts.now table.now.ends.now result }
{
    let mut onward = [0u64; WIDTH];
    reach::fill(table, &mut onward);
    if let Some(i) = first_loop(table, &onward) {
        return Verdict::Loop(i);
    }
    // of two routes that fork the higher is met upwards
    let up = forking(table, &onward, false);
    if up == 0 {
        return Verdict::Sound;
    }
    let forks = masks::either(up, forking(table, &onward, true));
    let places = starts_of(table, forks);
    match first_doubling(&onward, forks, places, table.starts.len()) {
        Some(j) => Verdict::Doubling(j),
        None => Verdict::Sound,
    }
}

// The verdict. It is the same whether routes join places or their numbers.
pub fn judge(froms: &[u32], tos: &[u32]) -> Verdict
    requires { (length froms.now ≤ width) × (length froms.now ≡ length tos.now) }
    ensures { Judged froms.now tos.now result }
{
    let n = froms.len();
    let mut numbers = [0u8; NUMBERS];
    numbering::number_all(tos, froms, &mut numbers);
    judge_numbered(&NumberedRoutes {
        starts: &numbers[n..n + n],
        ends: &numbers[..n],
    })
}

// Whether the verdict is sound.
#[tactic(auto, using(crate::proofs::Unsound::unsound))]
pub fn sound(froms: &[u32], tos: &[u32]) -> bool
    requires { (length froms.now ≤ width) × (length froms.now ≡ length tos.now) }
    ensures { Tells (IsSound froms.now tos.now) result }
{
    matches!(judge(froms, tos), Verdict::Sound)
}
