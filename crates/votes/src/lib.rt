// Of all offsets and quarters in the searched range the one with most votes (01, "Lines and votes"). Definitions: specs/Votes.
// A row holds the votes of all offsets with one q. Laws for callers: proofs/Laws (the winner by itself).
#![tactic(auto)]

ghost use Rattle.std.specs.Prelude.{◌≡◌, ℕ, ◌+◌, ◌-◌, ◌*◌, ◌^◌, ◌≤◌, ◌<◌, length, get_or};
ghost use Rattle.votes.specs.Votes.{max_pitch, min_pitch, votes_of_line, votes, winner};
ghost use Rattle.votes.specs.Inner.{hit, Added, Block, Picks};

// An offset with a pitch in quarters, and the votes that the pair gets.
#[derive(Clone, Copy, Default)]
pub struct Choice {
    pub votes: usize,
    pub offset: usize,
    pub quarter: usize,
}

impl Choice {
    // Of two choices the one ahead, where the other has no smaller q.
    fn ahead(self, other: Choice) -> Choice
        requires { self.quarter ≤ other.quarter }
        ensures { Picks (λ c. c ≡ other) self result }
    {
        if other.votes < self.votes {
            return self;
        }
        if other.votes == self.votes && self.offset <= other.offset {
            return self;
        }
        other
    }
}

// The pitches that are searched: those within SPREAD of the estimate e, from SMALLEST to LARGEST.
const SPREAD: usize = 5;

const SMALLEST: usize = 8;

const LARGEST: usize = 200;

fn max_pitch(e: u32) -> usize
    ensures { result ≡ max_pitch e }
{
    LARGEST.min(e as usize + SPREAD)
}

fn min_pitch(e: u32) -> usize
    ensures { result ≡ min_pitch e }
{
    SMALLEST.max((e as usize).saturating_sub(SPREAD))
}

// The offset l - s gets a vote, where it is searched.
fn vote(row: &mut [u32], l: usize, s: usize)
    requires { (o : ℕ) → o < length row.old → get_or row.old o 0 + hit l s o < 2 ^ 32 }
    ensures { Added (hit l s) row.old row.new }
{
    if s <= l {
        let o = l - s;
        if o < row.len() {
            row[o] += 1;
        }
    }
}

// The votes of a line with one q, for each n from `from` to before `end`.
#[tactic(auto, using(crate::proofs::Row::votes_of_line_more))]
fn vote_line(row: &mut [u32], l: usize, q: usize, from: usize, end: usize)
    requires limits { (l ≤ 4095) × (q ≤ 800) × (end ≤ 512) }
    requires no_overflow { (o : ℕ) → o < length row.old → get_or row.old o 0 + votes_of_line l q o from (end - from) < 2 ^ 32 }
    ensures { Added (λ o. votes_of_line l q o from (end - from)) row.old row.new }
{
    for n in from..end {
        let s = n * q / 4;
        vote(row, l, s);
        vote(row, l + 1, s);
    }
}

// The votes of all lines with one q.
fn vote_lines(row: &mut [u32], lines: &[u32], e: u32, q: usize)
    requires limits { ((k : ℕ) → get_or lines.now k 0 ≤ 4095) × (q ≤ 800) }
    requires no_overflow { (o : ℕ) → o < length row.old → get_or row.old o 0 + votes e lines.now o q < 2 ^ 32 }
    ensures { Added (λ o. votes e lines.now o q) row.old row.new }
{
    for line in lines {
        let l = *line as usize;
        vote_line(row, l, q, l / max_pitch(e), l / min_pitch(e) + 1);
    }
}

// Of the choices of a row, which all have the quarter q, and `best` the one ahead, where `best` has no larger q.
fn best_in_row(row: &[u32], q: usize, best: Choice) -> Choice
    requires { best.quarter ≤ q }
    ensures { Picks (Block (λ o _. get_or row.now o 0) 0 (length row.now) q 1) best result }
{
    let mut best = best;
    for (offset, votes) in row.iter().enumerate() {
        best = best.ahead(Choice {
            votes: *votes as usize,
            offset,
            quarter: q,
        });
    }
    best
}

// Offsets are searched up to 7 past the first line. The row is scratch: it holds their votes with one q at a time.
pub fn winner_of(lines: &[u32], e: u32, row: &mut [u32]) -> Choice
    requires lines_in { (0 < length lines.now) × (length lines.now ≤ 4096) × ((k : ℕ) → get_or lines.now k 0 ≤ 4095) }
    requires room { get_or lines.now 0 0 + 8 ≤ length row.old }
    ensures { result ≡ winner e lines.now }
{
    let row = &mut row[..lines[0] as usize + 8];
    let mut best = Choice::default();
    for q in 4 * min_pitch(e)..=4 * max_pitch(e) {
        row.fill(0);
        vote_lines(row, lines, e, q);
        best = best_in_row(row, q, best);
    }
    best
}
