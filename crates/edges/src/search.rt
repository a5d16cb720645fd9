// The bits of the threshold, found by counting: no sort, no copy.
//
// Where to count. `Seen` and `Counts` promise nothing, and no promise is owed: `Range::cut` keeps the entry sought in the range wherever
// within it is counted, and `next_count` promises a place within it whatever was seen. A bad place costs time alone.
ghost use Rattle.std.specs.Prelude.{◌≡◌, ◌≤◌, ◌<◌, length};
ghost use Rattle.std.specs.Float.{binary32};
ghost use Rattle.std.specs.Float.Ieee.{of_bits};
ghost use Rattle.rank.specs.Rank.{ranked};
ghost use Rattle.edges.specs.Edges.{sample, clip};

use crate::gradients::{Gradients, Part};
use crate::range::Range;

// So many guesses are made at most.
const GUESSES: u32 = 8;

// Without a guess, counts go up to 4 · NEAR from an end. FAR is farther than any range is wide.
const NEAR: u32 = 64;

const FAR: u32 = 0x4000000;

// How many values of the sample are at most some value, and how many of the part that guesses count over.
#[derive(Clone, Copy)]
struct Counts {
    of_all: u32,
    of_part: u32,
}

impl Counts {
    fn sizes(g: &Gradients) -> Self {
        Counts {
            of_all: g.size(Part::WHOLE) as u32,
            of_part: g.size(Part::GUESSED) as u32,
        }
    }
}

// What the counts told, to choose the place of the next one; only the time depends on it. The counts below the range and up to its end (at
// first 0 and all); how many guesses are left; how far from an end to count without a guess; and whether the last count kept the lower
// side.
#[derive(Clone, Copy)]
struct Seen {
    below: Counts,
    upto: Counts,
    guesses: u32,
    reach: u32,
    kept_lower: bool,
}

impl Seen {
    // Before any count.
    fn first(g: &Gradients) -> Self {
        Seen {
            below: Counts {
                of_all: 0,
                of_part: 0,
            },
            upto: Counts::sizes(g),
            guesses: GUESSES,
            reach: 0,
            kept_lower: false,
        }
    }

    // Whether to guess: guesses are left, and the part may have values in the range.
    fn guessing(self) -> bool {
        0 < self.guesses && self.below.of_part < self.upto.of_part
    }

    // The next reach: four times as far, then so far that only halving is left.
    fn wider(self) -> u32 {
        if self.reach < NEAR {
            4 * self.reach + 3
        } else {
            FAR
        }
    }

    // What is seen after a count, of the side that `Range::cut` takes.
    fn next(self, rank: u32, counts: Counts) -> Self {
        let lower = rank < counts.of_all;
        let (below, upto) = if lower {
            (self.below, counts)
        } else {
            (counts, self.upto)
        };
        Seen {
            below,
            upto,
            guesses: self.guesses.saturating_sub(1),
            reach: if self.guessing() {
                self.reach
            } else {
                self.wider()
            },
            kept_lower: lower,
        }
    }

    // The rank in the part that lies between those of the range's ends as `rank` does in the sample. It does lie between them, but no
    // proof needs that: `saturating_sub` and the test for 0 stand in for one.
    fn rank_in_part(self, rank: u32) -> u64 {
        let wide = self.upto.of_all.saturating_sub(self.below.of_all);
        let in_part = self.upto.of_part.saturating_sub(self.below.of_part);
        let share = u64::from(rank.saturating_sub(self.below.of_all)) * u64::from(in_part);
        if wide == 0 {
            0
        } else {
            u64::from(self.below.of_part) + share / u64::from(wide)
        }
    }
}

// Where entry `rank` of the part lies, as near as the range allows.
fn guess(g: &Gradients, rank: u64, from: Range) -> u32
    ensures { (from.lo ≤ result) × (result ≤ from.hi) }
{
    let mut range = from;
    while range.lo < range.hi {
        let mid = range.halfway();
        range = range.cut(mid, rank, g.count_part(Part::GUESSED, mid));
    }
    range.lo
}

// Where to count next: at a guess, or near the end that the last count did not move, where values often lie close together.
fn next_count(g: &Gradients, rank: u32, range: Range, seen: Seen) -> u32
    requires { range.lo < range.hi }
    ensures { (range.lo ≤ result) × (result < range.hi) }
{
    if seen.guessing() {
        let before_end = Range {
            lo: range.lo,
            hi: range.hi - 1,
        };
        guess(g, seen.rank_in_part(rank), before_end)
    } else {
        range.near_end(seen.reach, seen.kept_lower)
    }
}

// The bits of the clipped entry `rank` of the sample.
pub(crate) fn threshold_bits(g: &Gradients, rank: u32) -> u32
    ensures found { let l = sample g.now.row g.now.column g.now.values.now in
        rank < length l → of_bits binary32 result ≡ clip (ranked l rank) }
    ensures ceiling { result ≤ 0x3F800000 }
{
    let mut seen = Seen::first(g);
    let mut range = Range::limits();
    while range.lo < range.hi {
        let mid = next_count(g, rank, range, seen);
        let counts = Counts {
            of_all: g.count_part(Part::WHOLE, mid),
            of_part: g.count_part(Part::GUESSED, mid),
        };
        seen = seen.next(rank, counts);
        range = range.cut(mid, u64::from(rank), counts.of_all);
    }
    range.lo
}
