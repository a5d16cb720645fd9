// The lines of a list of scores, and the estimate e of their gap (01, "Lines and votes", first paragraph). Definitions: specs/Lines.
// Laws for callers: proofs/Laws (the lines rise, two remain after the drops, e is above 5 and at most their extent).
#![tactic(auto)]

ghost use Rattle.std.specs.Prelude.{◌≡◌, ◌||◌, ◌+◌, ◌-◌, ◌≤◌, ◌<◌, min, max, eqb, length, take};
ghost use Rattle.lists.specs.Front.{AtFront};
ghost use Rattle.rank.specs.Rank as Rank;
ghost use Rattle.lines.specs.Lines.{largest, smoothed, smooth, line_threshold, entries_before, entries_behind, stands_out};
ghost use Rattle.lines.specs.Lines.{is_line, places_of, lines_of, wide_gaps, chosen_gap};
ghost use Rattle.lines.specs.Inner.{InLimits, narrow_at, Remains};

use lists::EqualTo;
use std::ops::Range;

// No score is above this, and no list longer.
const MOST: u32 = 4096;

// Scores, the places of lines or their gaps: none is above 4,096.
#[derive(Clone, Copy)]
pub struct Small<'a> {
    pub values: &'a [u32],
    pub ghost small: { largest values.now ≤ 4096 },
}

// A list of scores within the limits.
#[derive(Clone, Copy)]
pub struct Scores<'a> {
    pub values: &'a [u32],
    pub ghost limits: { InLimits values.now },
}

// It compares: the check for 11 asks it of any numbers, and `excess` is wrong of two that are further apart than 2^31.
pub fn largest_of(s: &[u32]) -> u32
    ensures { result ≡ largest s.now }
{
    let mut most: u32 = 0;
    for x in s {
        most = most.max(*x);
    }
    most
}

impl Small<'_> {
    // Entry j of them sorted rising; 0 where there is none.
    #[tactic(auto, using(crate::proofs::Entries::exact))]
    fn entry(&self, j: usize) -> u32
        requires { length self.now.values.now ≤ 4096 }
        ensures { result ≡ Rank.entry Rank.self 0 self.now.values.now j }
    {
        rank::entry_of(self.values, j, MOST)
    }
}

// ---- smoothing

// The binary digit of this power of two in b - a, taken in 32 bits, is 1 where b is below a, and else 0. For scores any power from 8,192
// on would do; with the highest the compiler shifts, or takes a packed minimum with 0, where with 8,192 it compares again.
const POWER: u32 = 0x8000_0000;

// By how much a is above b, 0 if it is not. All scores take one way through, without a branch or a comparison, so that smoothing takes
// as long for any list as for any other of its length.
fn excess(a: u32, b: u32) -> u32
    requires { (a ≤ 4096) × (b ≤ 4096) }
    ensures { result ≡ a - b }
{
    let difference = b.wrapping_sub(a);
    (difference * (difference / POWER % 2)).wrapping_neg()
}

fn larger_score(a: u32, b: u32) -> u32
    requires { (a ≤ 4096) × (b ≤ 4096) }
    ensures { result ≡ max a b }
{
    b + excess(a, b)
}

fn smaller_score(a: u32, b: u32) -> u32
    requires { (a ≤ 4096) × (b ≤ 4096) }
    ensures { result ≡ min a b }
{
    a - excess(a, b)
}

impl Small<'_> {
    fn largest_of_four(&self) -> u32
        requires { length self.now.values.now ≡ 4 }
        ensures { result ≡ largest self.now.values.now }
    {
        let s = self.values;
        larger_score(s[0], larger_score(s[1], larger_score(s[2], s[3])))
    }

    // A place with four neighbours on each side.
    #[tactic(auto, using(crate::proofs::Windows::largest_part, crate::proofs::Windows::largest_at))]
    fn smooth_at(&self, i: usize) -> u32
        requires { (4 ≤ i) × (i + 4 < length self.now.values.now) }
        ensures { result ≡ smoothed self.now.values.now i }
    {
        let s = self.values;
        let before = Small {
            values: &s[i - 4..i],
        };
        let behind = Small {
            values: &s[i + 1..i + 5],
        };
        let near = smaller_score(before.largest_of_four(), behind.largest_of_four());
        larger_score(s[i], near)
    }

    // The first and last four are as they were; those between have four neighbours on each side.
    #[tactic(auto, using(crate::proofs::Smoothing::smooth_begun))]
    pub fn smooth_into(&self, t: &mut [u32])
        requires { (4 ≤ length self.now.values.now) × (length self.now.values.now ≤ length t.old) }
        ensures { AtFront (smooth self.now.values.now) t.old t.new }
    {
        let n = self.values.len();
        lists::copy_front(self.values, n, t);
        for i in 4..n - 4 {
            t[i] = self.smooth_at(i);
        }
    }
}

// ---- the line test

// The seven entries before place i, as far as there are so many.
fn seven_before(t: &[u32], i: usize) -> &[u32]
    requires { i < length t.now }
    ensures { result.now ≡ entries_before 7 t.now i }
{
    &t[i.saturating_sub(7)..i]
}

// The seven after it.
fn seven_behind(t: &[u32], i: usize) -> &[u32]
    requires { i < length t.now }
    ensures { result.now ≡ entries_behind 7 t.now i }
{
    let rest = &t[i + 1..];
    &rest[..rest.len().min(7)]
}

// The equals before are those after, or one less.
fn balanced(before: u32, after: u32) -> bool
    requires { (before ≤ 7) × (after ≤ 7) }
    ensures { result ≡ (eqb before after || eqb (before + 1) after) }
{
    before == after || before + 1 == after
}

// Whether no entry of the windows a before and b behind is above v, and the equals are balanced.
#[tactic(auto, using(lists::proofs::Count::count_le))]
fn stands_out(v: u32, a: &[u32], b: &[u32]) -> bool
    requires { (length a.now ≤ 7) × (length b.now ≤ 7) }
    ensures { result ≡ stands_out v a.now b.now }
{
    largest_of(a) <= v
        && largest_of(b) <= v
        && balanced(
            lists::count_passing(a, &EqualTo(v)),
            lists::count_passing(b, &EqualTo(v)),
        )
}

impl<'a> Scores<'a> {
    #[tactic(auto, using(crate::proofs::Entries::exact), unfolding(crate::specs::Lines::line_threshold))]
    pub fn line_threshold(&self) -> f32
        ensures { result ≡ line_threshold self.now.values.now }
    {
        let s = self.small();
        let n = s.values.len();
        let high = s.entry(binary32::trunc(0.85 * n as f32) as usize);
        let last = s.entry(n - 1);
        (high as f32 + last as f32 * 0.75) / 2.0
    }

    // Few places reach the threshold, so it is tested first.
    #[tactic(auto, using(crate::proofs::Entries::exact), unfolding(crate::specs::Lines::is_line))]
    fn is_line(&self, th: f32, i: usize) -> bool
        requires { i < length self.now.values.now }
        ensures { result ≡ is_line th self.now.values.now i }
    {
        let t = self.values;
        t[i] as f32 >= th && stands_out(t[i], seven_before(t, i), seven_behind(t, i))
    }

    // The places that are lines, and how many.
    #[tactic(auto, using(crate::proofs::Collecting::places))]
    fn collect_lines(&self, th: f32, lines: &mut [u32]) -> usize
        requires { length self.now.values.now ≤ length lines.old }
        ensures counted { result ≡ length (places_of th self.now.values.now) }
        ensures front { AtFront (places_of th self.now.values.now) lines.old lines.new }
    {
        let mut n: usize = 0;
        for i in 0..self.values.len() {
            if self.is_line(th, i) {
                lines[n] = i as u32;
                n += 1;
            }
        }
        n
    }

    fn small(&self) -> Small<'a>
        ensures { result.values.now ≡ self.now.values.now }
    {
        Small {
            values: self.values,
        }
    }

    // Their lines, and how many; t is scratch.
    #[tactic(auto, using(crate::proofs::Smoothing::smooth_scores), unfolding(crate::specs::Lines::lines_of))]
    pub fn find_lines(&self, t: &mut [u32], lines: &mut [u32]) -> usize
        requires { (length self.now.values.now ≤ length t.old) × (length self.now.values.now ≤ length lines.old) }
        ensures counted { result ≡ length (lines_of self.now.values.now) }
        ensures front { AtFront (lines_of self.now.values.now) lines.old lines.new }
        ensures part { take result lines.new ≡ lines_of self.now.values.now }
    {
        self.small().smooth_into(t);
        let smoothed = Scores {
            values: &t[..self.values.len()],
        };
        smoothed.collect_lines(self.line_threshold(), lines)
    }
}

// ---- gaps and their estimate

// The gaps above 5, and how many.
#[tactic(auto, using(crate::proofs::Collecting::next_gap))]
pub fn wide_gaps(lines: &[u32], out: &mut [u32]) -> usize
    requires { length lines.now ≤ length out.old }
    ensures counted { result ≡ length (wide_gaps lines.now) }
    ensures front { AtFront (wide_gaps lines.now) out.old out.new }
    ensures part { take result out.new ≡ wide_gaps lines.now }
{
    let mut n: usize = 0;
    for pair in lines.windows(2) {
        let gap = pair[1].saturating_sub(pair[0]);
        if gap > 5 {
            out[n] = gap;
            n += 1;
        }
    }
    n
}

impl Small<'_> {
    // Of gaps the one that is e.
    #[tactic(auto, using(crate::proofs::Entries::exact))]
    pub fn chosen_gap(&self) -> u32
        requires { length self.now.values.now ≤ 4096 }
        ensures { result ≡ chosen_gap self.now.values.now }
    {
        let d = self.values;
        self.entry(binary32::trunc(d.len() as f32 * 0.4) as usize)
    }
}

// ---- the two drops

// The lines that remain are those from `from` up to `end`.
#[derive(Clone, Copy)]
pub struct KeptRange {
    pub from: usize,
    pub end: usize,
}

impl Small<'_> {
    // Of lines: whether there is a gap from entry k to the next, and it is narrow.
    #[tactic(auto, using(crate::proofs::Entries::exact), unfolding(crate::specs::Lines::narrow_gap))]
    fn narrow_after(&self, k: usize, e: u32) -> bool
        requires { (k ≤ length self.now.values.now) × (e ≤ 4096) }
        ensures { result ≡ narrow_at e self.now.values.now k }
    {
        let lines = self.values;
        k + 1 < lines.len() && lines[k + 1].saturating_sub(lines[k]) as f32 <= e as f32 * 0.8
    }

    // The first drop tests the first two, the last drop the last two of what that leaves.
    #[tactic(auto, using(crate::proofs::Drops::both, crate::proofs::Windows::largest_part))]
    pub fn kept_lines(&self, e: u32) -> KeptRange
        requires { e ≤ 4096 }
        ensures { Remains e self.now.values.now result.from result.end }
    {
        let lines = self.values;
        let from = usize::from(self.narrow_after(0, e));
        let rest = Small {
            values: &lines[from..],
        };
        let before_last = rest.values.len().saturating_sub(2);
        let dropped = usize::from(rest.narrow_after(before_last, e));
        KeptRange {
            from,
            end: lines.len() - dropped,
        }
    }

    // The same as the library's range, which cannot be copied.
    pub fn kept_range(&self, e: u32) -> Range<usize>
        requires { e ≤ 4096 }
        ensures { Remains e self.now.values.now result.start result.end }
    {
        let kept = self.kept_lines(e);
        kept.from..kept.end
    }
}

#[cfg(test)]
mod tests {
    use super::*;

    #[test]
    fn lines_that_remain(rt: HostRuntime) {
        // e is 10: a gap of 8 is narrow, one of 9 is not. Of two lines 8 apart the first is dropped, and then there is no gap.
        let both = Small {
            values: &[3, 11, 21, 31, 39],
        };
        assert_eq!(rt; both.kept_range(10), 1..4);
        assert_eq!(rt; both.kept_range(9), 0..5);
        let first = Small {
            values: &[3, 11, 21],
        };
        assert_eq!(rt; first.kept_range(10), 1..3);
        let last = Small {
            values: &[3, 13, 21],
        };
        assert_eq!(rt; last.kept_range(10), 0..2);
        let neither = Small {
            values: &[3, 12, 22, 31],
        };
        assert_eq!(rt; neither.kept_range(10), 0..4);
        let two = Small { values: &[3, 11] };
        assert_eq!(rt; two.kept_range(10), 1..2);
        let none = Small { values: &[] };
        assert_eq!(rt; none.kept_range(10), 0..0);
    }
}
