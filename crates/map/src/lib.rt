// The printed map of a board (02, R-6): two lines with its counts, then a line of marks for each board row. A call refuses with 1, 3, 4,
// 10, 11, 15, 11 and 3, in that order, before it writes. Definitions: specs/Map; specs/Inner is for the inner functions. Laws for
// callers: proofs/Laws (marks, levels, what a mark shows, and the room that a map takes).
#![tactic(auto)]

ghost use Rattle.std.specs.Prelude.{◌≡◌, true, List, ◌≤◌, Float};
ghost use Rattle.binary32.specs.Binary32.{unit};
ghost use Rattle.refusal.specs.Refusal.{answer_of};
ghost use Rattle.map.specs.Map.{most_rows, green_level, mark_of, print_answer, map_answer, printed_of, MapGives};
ghost use Rattle.map.specs.Inner.{text_length};

use board::Board;
use refusal::Refusal;

mod page;

use page::Page;

// What printing hands back as C has it: the answer, 0 or the number of the refusal, and the length of the text.
#[repr(C)]
#[derive(Clone, Copy)]
pub struct Printed {
    pub answer: u32,
    pub length: usize,
}

// A refusal hands back the length 0.
impl From<Result<usize, Refusal>> for Printed {
    ghost from_gives = { λ outcome printed. printed ≡ printed_of outcome };

    fn from(outcome: Result<usize, Refusal>) -> Printed {
        match outcome {
            Ok(length) => Printed { answer: 0, length },
            Err(refusal) => Printed {
                answer: u32::from(refusal),
                length: 0,
            },
        }
    }
}

// The characters of a board row, and the most board columns.
const LINE_WIDTH: usize = 80;

const MOST_ROWS: usize = 4096;

// The bytes of the line of names.
const NAMES: usize = 13;

#[tactic(auto, unfolding(crate::specs::Map::green_level), using(crate::proofs::Level::level_most))]
fn green_level(v: f32) -> u8
    requires { unit v ≡ true }
    ensures { result ≡ green_level v }
{
    binary32::trunc(255.0 * v + 0.5) as u8
}

fn mark_of(level: u8) -> u8
    ensures { result ≡ mark_of level }
{
    match level {
        0..=42 => b'.',
        43..=84 => b':',
        85..=127 => b'o',
        128..=212 => b'O',
        213..=255 => b'#',
    }
}

#[tactic(auto, using(text::proofs::Decimal::decimal_most, crate::proofs::Rows::counts_length))]
fn text_length(r: usize, c: usize) -> usize
    requires { r ≤ most_rows }
    ensures { result ≡ text_length r c }
{
    NAMES + (text::digits(r as u64) + 1 + text::digits(c as u64) + 1) + r * (LINE_WIDTH + 1)
}

// What can refuse where record and planes are fit for sampling: of any planes, as the text's length is a matter of the counts alone.
#[tactic(auto, unfolding(crate::specs::Map::print_answer), using(crate::proofs::Rows::text_length_lem))]
fn check_counts(b: Board, room: usize) -> Result<(), Refusal>
    ensures { (planes : List Float) → answer_of result ≡ print_answer b planes room }
{
    if LINE_WIDTH < b.c {
        return Err(Refusal::TooWide);
    }
    if MOST_ROWS < b.r {
        return Err(Refusal::BadNumber);
    }
    if room < text_length(b.r, b.c) {
        return Err(Refusal::ShortSlice);
    }
    Ok(())
}

// All that can refuse.
#[tactic(auto, unfolding(crate::specs::Map::map_answer))]
fn check(b: Board, planes: &[f32], room: usize) -> Result<(), Refusal>
    ensures { answer_of result ≡ map_answer b planes.now room }
{
    sample::check_fit(b, planes)?;
    check_counts(b, room)
}

// The map of any record and planes: the text at the start of `out` and its length, or a refusal and nothing written.
#[tactic(auto, using(crate::proofs::Answers::prints, crate::proofs::Answers::printed))]
pub fn print_map(b: Board, planes: &[f32], out: &mut [u8]) -> Result<usize, Refusal>
    ensures { MapGives b planes.now out.old (printed_of result) out.new }
{
    check(b, planes, out.len())?;
    Ok(Page { board: b, planes }.put_map(out))
}
