// What a list of scores reads as (01, "Lines and votes"; refusals: "How each operation declines"). Definitions: specs/Reading;
// specs/Inner has those of the code alone.
// Laws for callers: proofs/Laws (an accepted reading has the winner of the remaining lines, and its pitch is at most 200).
#![tactic(auto)]

ghost use Rattle.std.specs.Prelude.{◌≡◌, ℕ, ◌+◌, ◌-◌, ◌*◌, ◌≤◌, ◌<◌, length, get_or};
ghost use Rattle.refusal.specs.Refusal.{number, answer_of, numbered};
ghost use Rattle.reading.specs.Reading.{pitch_of, count_of, accepted, quarters_of, line_answer, reading_of, line_of, LineGives};
ghost use Rattle.reading.specs.Inner.{gap_number, Readable, RemainingGives};

use lines::{Scores, Small};
use refusal::Refusal;

// What a list reads as: a pitch, in quarters or as a number, with an offset, a count and the votes.
#[derive(Clone, Copy)]
pub struct Reading<P> {
    pub pitch: P,
    pub offset: usize,
    pub count: usize,
    pub votes: usize,
}

// Why lines are not read: no two neighbours are more than 5 apart, or the estimate of their gap is too large.
#[derive(Clone, Copy, Debug, PartialEq, Eq)]
pub enum Gap {
    Missing,
    Wide,
}

// A line by itself has the numbers of the columns.
impl From<Gap> for Refusal {
    ghost from_gives = { λ gap refusal. number refusal ≡ gap_number gap };

    fn from(gap: Gap) -> Refusal {
        match gap {
            Gap::Missing => Refusal::ColumnsNoGap,
            Gap::Wide => Refusal::ColumnsTooFar,
        }
    }
}

// A reading as number and values, as C has it: zeros unless the answer is 0.
#[repr(C)]
#[derive(Clone, Copy)]
pub struct Line {
    pub answer: u32,
    pub pitch: f32,
    pub offset: usize,
    pub count: usize,
    pub votes: usize,
}

impl From<Result<Reading<f32>, Refusal>> for Line {
    ghost from_gives = { λ outcome line. line ≡ line_of (numbered number outcome) };

    fn from(outcome: Result<Reading<f32>, Refusal>) -> Line {
        match outcome {
            Ok(reading) => Line {
                answer: 0,
                pitch: reading.pitch,
                offset: reading.offset,
                count: reading.count,
                votes: reading.votes,
            },
            Err(refusal) => Line {
                answer: u32::from(refusal),
                pitch: 0.0,
                offset: 0,
                count: 0,
                votes: 0,
            },
        }
    }
}

// What is searched: the lines that remain, as a part of the array that was lent for them, and e.
#[derive(Clone, Copy)]
struct Remaining {
    from: usize,
    end: usize,
    e: u32,
}

// The limits of a list: its length, and its entries.
const SHORTEST: usize = 4;

const LONGEST: usize = 4096;

const HIGHEST: u32 = 4096;

// From this e on there is no pitch to search.
const WIDE: u32 = 206;

pub fn pitch_of(quarter: usize) -> f32
    requires { quarter ≤ 800 }
    ensures { result ≡ pitch_of quarter }
{
    quarter as f32 / 4.0
}

fn count_of(lines: &[u32], quarter: usize) -> usize
    requires few { (quarter ≤ 800) × (0 < length lines.now) × ((k : ℕ) → get_or lines.now k 0 ≤ 4095) }
    requires rising { get_or lines.now 0 0 ≤ get_or lines.now (length lines.now - 1) 0 }
    ensures { result ≡ count_of lines.now quarter }
{
    let span = lines[lines.len() - 1] - lines[0] + 2;
    binary32::trunc(span as f32 / pitch_of(quarter)) as usize
}

// The lines that remain of s, in the array that is lent for them. The scratch serves the smoothed list, then the gaps.
fn remaining_of(s: &Scores, scratch: &mut [u32], array: &mut [u32]) -> Result<Remaining, Gap>
    requires { (length s.now.values.now ≤ length scratch.old) × (length s.now.values.now ≤ length array.old) }
    ensures { RemainingGives s.now.values.now result array.new }
{
    let n = s.find_lines(scratch, array);
    let m = lines::wide_gaps(&array[..n], scratch);
    if m == 0 {
        return Err(Gap::Missing);
    }
    let gaps = Small {
        values: &scratch[..m],
    };
    let e = gaps.chosen_gap();
    if e >= WIDE {
        return Err(Gap::Wide);
    }
    let lines = Small {
        values: &array[..n],
    };
    let kept = lines.kept_lines(e);
    Ok(Remaining {
        from: kept.from,
        end: kept.end,
        e,
    })
}

// The reading of the lines that remain. The row is scratch.
fn read_lines(lines: &[u32], e: u32, row: &mut [u32]) -> Reading<usize>
    requires { Readable e lines.now (length row.old) }
    ensures { result ≡ accepted e lines.now }
{
    let w = votes::winner_of(lines, e, row);
    Reading {
        pitch: w.quarter,
        offset: w.offset,
        count: count_of(lines, w.quarter),
        votes: w.votes,
    }
}

// The lines are kept in an array of their own; the scratch then serves the row of votes.
pub fn quarters_of(s: &Scores, scratch: &mut [u32]) -> Result<Reading<usize>, Gap>
    requires { 4 * length s.now.values.now ≤ length scratch.old }
    ensures { numbered gap_number result ≡ quarters_of s.now.values.now }
{
    let mut array = [0u32; LONGEST];
    let kept = remaining_of(s, scratch, &mut array)?;
    Ok(read_lines(&array[kept.from..kept.end], kept.e, scratch))
}

// The refusals that come before the lines. `scratch` is the number of its entries.
#[tactic(auto, using(crate::proofs::Answers::line_fit))]
fn check(list: &[u32], scratch: usize) -> Result<(), Refusal>
    ensures { answer_of result ≡ line_answer list.now scratch }
{
    let n = list.len();
    if !(SHORTEST..=LONGEST).contains(&n) {
        return Err(Refusal::BadSide);
    }
    let room = 4 * n;
    if scratch < room {
        return Err(Refusal::ShortSlice);
    }
    if HIGHEST < lines::largest_of(list) {
        return Err(Refusal::BadNumber);
    }
    Ok(())
}

// The reading, and the number and values that it stands for. The scratch that is lent beyond 4·L entries is kept.
pub fn get_line(list: &[u32], scratch: &mut [u32]) -> Result<Reading<f32>, Refusal>
    ensures reads { numbered number result ≡ reading_of list.now (length scratch.old) }
    ensures gives { LineGives list.now scratch.old (line_of (numbered number result)) scratch.new }
{
    let len = scratch.len();
    check(list, len)?;
    let scores = Scores { values: list };
    let room = 4 * list.len();
    let read = quarters_of(&scores, &mut scratch[..room])?;
    Ok(Reading {
        pitch: pitch_of(read.pitch),
        offset: read.offset,
        count: read.count,
        votes: read.votes,
    })
}
