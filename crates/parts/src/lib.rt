// The parts of a text between separators: where the next separator stands, and what is before and after it. Lines and fields
// are both found so. `find` answers for every slice; the others ask that the place is within it.
#![tactic(auto)]

ghost use Rattle.std.specs.Prelude.{◌≡◌, ◌≤◌, length, take, drop};
ghost use Rattle.parts.specs.Parts.{index_of};

// What parts fields, and what ends a line.
pub const TAB: u8 = b'\t';

pub const NEWLINE: u8 = b'\n';

// Where b first stands in s, or the length of s.
// Two bytes a turn, so that it is asked half as often whether s has ended: each byte of a text is passed here.
pub fn find(s: &[u8], b: u8) -> usize
    ensures { result ≡ index_of b s.now }
{
    let pairs = s.len() / 2;
    for pair in 0..pairs {
        let i = 2 * pair;
        if s[i] == b {
            return i;
        }
        if s[i + 1] == b {
            return i + 1;
        }
    }
    let last = 2 * pairs;
    if last < s.len() && s[last] == b {
        return last;
    }
    s.len()
}

// The part before k.
// Kept, and so is `part_from`: a slice in place is no plainer for the listers, whose proofs take what is left as one `take` or `drop`.
pub fn part_before(s: &[u8], k: usize) -> &[u8]
    requires { k ≤ length s.now }
    ensures { result.now ≡ take k s.now }
{
    &s[..k]
}

// The part from i on.
pub fn part_from(s: &[u8], i: usize) -> &[u8]
    requires { i ≤ length s.now }
    ensures { result.now ≡ drop i s.now }
{
    &s[i..]
}
