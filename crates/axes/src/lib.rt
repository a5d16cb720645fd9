// Both axes of an edge picture over some bounds: column scores, then row scores, in one slice (01, "Path scores"; 02, R-4), and
// what each list reads as (01, "Lines and votes"). Definitions: strips' column_scores and row_scores, reading's
// quarters_of; specs/Inner is for the code. Laws for callers: proofs/Scoring.
#![tactic(auto)]

ghost use Rattle.std.specs.Prelude.{◌++◌, ◌+◌, ◌-◌, ◌*◌, ◌≤◌, length};
ghost use Rattle.lists.specs.Front.{AtFront};
ghost use Rattle.lists.specs.Picture.{points};
ghost use Rattle.strips.specs.Strip.{column_scores, row_scores};
ghost use Rattle.strips.specs.Inner.{place_count};
ghost use Rattle.axes.specs.Inner.{both_counts, RoomFor, ReadsAxes};

use lines::Scores;
use reading::{Gap, Reading};
use strips::Region;

// What the columns and the rows read as.
#[derive(Clone, Copy)]
pub struct Readings {
    pub columns: Result<Reading<usize>, Gap>,
    pub rows: Result<Reading<usize>, Gap>,
}

// Column scores, then row scores, to the front of `scores`. `turned` is scratch.
fn score_all(region: &Region, turned: &mut [u8], scores: &mut [u32])
    requires scores_room { both_counts region.now.bounds ≤ length scores.old }
    requires turned_room { let b = region.now.bounds in
        (b.c_2 - b.c_1 + 1) * place_count b.r_1 b.r_2 ≤ length turned.old }
    ensures { let E = points region.now.stride 1 region.now.edges.now in
        let b = region.now.bounds in
        AtFront (column_scores E b ++ row_scores E b) scores.old scores.new }
{
    let b = region.bounds;
    region.column_scores(scores);
    let from = strips::place_count(b.c_1, b.c_2);
    region.row_scores(turned, &mut scores[from..]);
}

// The scores of both axes, and their readings. `turned` and `words` are scratch.
pub fn read_axes(
    region: &Region,
    scores: &mut [u32],
    turned: &mut [u8],
    words: &mut [u32],
) -> Readings
    requires { RoomFor region.now.bounds (length scores.old) (length turned.old) (length words.old) }
    ensures { ReadsAxes (points region.now.stride 1 region.now.edges.now) region.now.bounds scores.old result scores.new }
{
    let b = region.bounds;
    score_all(region, turned, scores);
    let across = strips::place_count(b.c_1, b.c_2);
    let end = across + strips::place_count(b.r_1, b.r_2);
    let both = &scores[..];
    let across_scores = Scores {
        values: &both[..across],
    };
    let down_scores = Scores {
        values: &both[across..end],
    };
    let columns = reading::quarters_of(&across_scores, words);
    let rows = reading::quarters_of(&down_scores, words);
    Readings { columns, rows }
}
