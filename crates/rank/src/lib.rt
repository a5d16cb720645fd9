// Entry j of a list sorted rising, found by counting: no sort, no copy. Definitions: specs/Rank.
// Laws for callers: proofs/Entry, proofs/Members, proofs/Counts, proofs/Keys.
#![tactic(auto)]

ghost use Rattle.std.specs.Prelude.{◌≡◌, ◌≤◌, ◌^◌, length};
ghost use Rattle.rank.specs.Rank.{self, entry};
ghost use Rattle.rank.specs.Inner.{count_at_most, entry_at};

use lists::AtMost;

// Entry j of s sorted rising, if there is one, where no entry is above `most`. It halves the range of values.
pub fn get_entry(s: &[u32], j: usize, most: u32) -> Option<u32>
    requires { (length s.now ≤ 2 ^ 24) × (count_at_most self most s.now ≡ length s.now) }
    ensures { result ≡ entry_at self 0 s.now j }
{
    if s.len() <= j {
        return None;
    }
    let mut lo: u32 = 0;
    let mut hi: u32 = most;
    while lo < hi {
        let mid = lo + (hi - lo) / 2;
        if j < lists::count_passing(s, &AtMost(mid)) as usize {
            hi = mid;
        } else {
            lo = mid + 1;
        }
    }
    Some(lo)
}

// The same, and 0 where there is no entry j.
#[tactic(auto, using(crate::proofs::Entry::entry_or))]
pub fn entry_of(s: &[u32], j: usize, most: u32) -> u32
    requires { (length s.now ≤ 2 ^ 24) × (count_at_most self most s.now ≡ length s.now) }
    ensures { result ≡ entry self 0 s.now j }
{
    get_entry(s, j, most).unwrap_or(0)
}
