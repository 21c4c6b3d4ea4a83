// Whether the entries past a count are 0, as those of an empty or a taken book are.
#![tactic(auto)]

ghost use Rattle.std.specs.Prelude.{◌≡◌, ◌&&◌, ◌≤◌, length, drop};
ghost use Rattle.zeros.specs.Zeros.{zeros};

// Whether every entry is 0. All bits are gathered first, and tested once.
fn all_zero(entries: &[u32]) -> bool
    ensures { result ≡ zeros entries.now }
{
    let mut all: u32 = 0;
    for x in entries {
        all |= *x;
    }
    all == 0
}

// Whether every entry of a column past its first `count` is 0.
pub fn zero_past(column: &[u32], count: usize) -> bool
    requires { count ≤ length column.now }
    ensures { result ≡ zeros (drop count column.now) }
{
    all_zero(&column[count..])
}

// Whether every entry of four parts of one length is 0: they are gathered at once.
pub fn four_zero(one: &[u32], two: &[u32], three: &[u32], four: &[u32]) -> bool
    requires { (length two.now ≡ length one.now) × (length three.now ≡ length one.now) × (length four.now ≡ length one.now) }
    ensures { result ≡ (zeros one.now && zeros two.now) && (zeros three.now && zeros four.now) }
{
    let mut all: u32 = 0;
    for (at, x) in one.iter().enumerate() {
        all = all | *x | two[at] | three[at] | four[at];
    }
    all == 0
}
