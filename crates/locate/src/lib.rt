// Locating the board (01, "Locating"; 02, R-1 and R-3 to R-5). It refuses with 13, then 1, 3 and 4, then 5 to 9. Definitions:
// specs/Reference (what it is held to, from the factor, sides and planes as handed in), specs/Locate (what a call hands
// back and leaves), specs/Promise (on the same edge picture no walk and no vote beats what it hands back), specs/Corners
// (where both corners of its record lie). The loop of narrowings is crate narrowings, the scores and their readings crate
// axes.
#![tactic(auto)]

ghost use Rattle.std.specs.Prelude.{◌≡◌, false, [], ◌+◌, ◌-◌, ◌*◌, ◌≤◌, length, take, IfOk, Ok};
ghost use Rattle.board.specs.Board.{least_located, sides_outside};
ghost use Rattle.board.specs.Inner.{FitPlanes};
ghost use Rattle.refusal.specs.Refusal.{number, answer_of, numbered};
ghost use Rattle.reading.specs.Inner.{gap_number};
ghost use Rattle.axes.specs.Inner.{Fits32};
ghost use Rattle.locate.specs.Locate as Spec;
ghost use Rattle.locate.specs.Locate.{lent, slices_short, checked, LocateGives};
ghost use Rattle.locate.specs.Promise.{Promise};
ghost use Rattle.locate.specs.Corners.{CornersHold};
ghost use Rattle.locate.specs.Inner.{NoneShort, Leads, ReadsFrom, Works};

use board::{Board, Bounds, Factor, Spacing};
use narrowings::Narrowed;
use reading::{Gap, Reading};
use refusal::Refusal;
use strips::Region;

// A record and the answer, both pitches in quarters, both counts of votes, and how often the screen was narrowed.
#[repr(C)]
#[derive(Clone, Copy)]
pub struct Located {
    pub board: Board,
    pub answer: u32,
    pub quarterr: u32,
    pub quarterc: u32,
    pub votesr: u32,
    pub votesc: u32,
    pub narrowed: u32,
}

// Whether a slice other than the planes is short. With sides outside the limits any answer will do: it is not looked at.
#[tactic(auto, unfolding(crate::specs::Locate::slices_short), using(board::proofs::Sides::sides_in))]
fn slices_short(
    least: usize,
    height: usize,
    width: usize,
    edges: &[u8],
    scores: &[u32],
    scratch_f32: &[f32],
    scratch_u8: &[u8],
    scratch_u32: &[u32],
) -> bool
    ensures { let s = lent [] edges.now scores.now
        scratch_f32.now scratch_u8.now scratch_u32.now in
        (sides_outside least height width ≡ false → result ≡ slices_short height width s) }
{
    if board::sides_outside(least, height, width) {
        return true;
    }
    let n = height * width;
    edges.len() < n
        || scores.len() < height + width
        || scratch_f32.len() < n
        || scratch_u8.len() < n
        || scratch_u32.len() < 4 * (height + width)
}

// The checks before any work. They hand back the factor.
fn check(
    b: Board,
    factor: usize,
    planes: &[f32],
    edges: &[u8],
    scores: &[u32],
    scratch_f32: &[f32],
    scratch_u8: &[u8],
    scratch_u32: &[u32],
) -> Result<Factor, Refusal>
    ensures answer { let s = lent planes.now edges.now scores.now
        scratch_f32.now scratch_u8.now scratch_u32.now in
        answer_of result ≡ checked b factor s }
    ensures value { IfOk result (λ f. f.value ≡ factor) }
    ensures fit { IfOk result (λ f. FitPlanes (least_located f.value) b.height b.width planes.now) }
    ensures room { let s = lent planes.now edges.now scores.now
        scratch_f32.now scratch_u8.now scratch_u32.now in
        IfOk result (λ f. NoneShort b.height b.width s) }
{
    let factor = Factor::new(factor).ok_or(Refusal::BadFactor)?;
    let least = factor.least_located();
    let short = slices_short(
        least,
        b.height,
        b.width,
        edges,
        scores,
        scratch_f32,
        scratch_u8,
        scratch_u32,
    );
    board::check_planes(least, b.height, b.width, planes, short)?;
    Ok(factor)
}

// A refusal: all but the record, the answer and the count of narrowings is 0.
fn declined(b: Board, refusal: Refusal, narrowed: u32) -> Located
    ensures { result ≡ Spec.declined b (number refusal) narrowed }
{
    Located {
        board: b,
        answer: u32::from(refusal),
        quarterr: 0,
        quarterc: 0,
        votesr: 0,
        votesc: 0,
        narrowed,
    }
}

fn spacing(reading: Reading<usize>) -> Spacing
    requires { reading.pitch ≤ 800 }
    ensures { result ≡ Spec.spacing reading.pitch reading.offset reading.count }
{
    Spacing {
        offset: reading.offset,
        count: reading.count,
        pitch: reading::pitch_of(reading.pitch),
    }
}

// A record of an accepted board.
fn accepted(
    b: Board,
    narrowed: u32,
    bounds: Bounds,
    columns: Reading<usize>,
    rows: Reading<usize>,
) -> Located
    requires { Fits32 (Ok columns) × Fits32 (Ok rows) }
    ensures { result ≡ Spec.joined b narrowed bounds (Ok columns) (Ok rows) }
{
    Located {
        board: b.with_reading(bounds, spacing(rows), spacing(columns)),
        answer: 0,
        quarterr: rows.pitch as u32,
        quarterc: columns.pitch as u32,
        votesr: rows.votes as u32,
        votesc: columns.votes as u32,
        narrowed,
    }
}

// Why the rows are not read.
fn of_rows(gap: Gap) -> Refusal
    ensures { number result ≡ gap_number gap + 2 }
{
    match gap {
        Gap::Missing => Refusal::RowsNoGap,
        Gap::Wide => Refusal::RowsTooFar,
    }
}

// Both readings together: columns answer first.
fn joined(
    b: Board,
    narrowed: u32,
    bounds: Bounds,
    columns: Result<Reading<usize>, Gap>,
    rows: Result<Reading<usize>, Gap>,
) -> Located
    requires { Fits32 (numbered gap_number columns) × Fits32 (numbered gap_number rows) }
    ensures { result ≡ Spec.joined b narrowed bounds (numbered gap_number columns) (numbered gap_number rows) }
{
    match columns {
        Err(gap) => declined(b, Refusal::from(gap), narrowed),
        Ok(columns) => match rows {
            Err(gap) => declined(b, of_rows(gap), narrowed),
            Ok(rows) => accepted(b, narrowed, bounds, columns, rows),
        },
    }
}

// What follows the loop: the bounds of the last picture are widened on its edge picture, which stands at the front of
// `edges`, and both axes are read.
fn read_from(
    b: Board,
    l: Narrowed,
    edges: &[u8],
    scores: &mut [u32],
    scratch_u8: &mut [u8],
    scratch_u32: &mut [u32],
) -> Located
    requires { let bytes = length scratch_u8.old in
        let words = length scratch_u32.old in
        Leads l edges.now (length scores.old) bytes words }
    ensures { let picture = take ((l.height - 2) * (l.width - 2)) edges.now in
        ReadsFrom b l picture scores.old result scores.new }
{
    let row = l.height - 2;
    let column = l.width - 2;
    let n = row * column;
    let wide = bounds::widen(&edges[..n], column, row, column, l.bounds);
    let region = Region {
        edges: &edges[..n],
        stride: column,
        bounds: wide,
    };
    let axes = axes::read_axes(&region, scores, scratch_u8, scratch_u32);
    joined(
        b.resized(l.height, l.width),
        l.narrowed,
        wide,
        axes.columns,
        axes.rows,
    )
}

// The work, once the checks passed.
fn work(
    b: Board,
    factor: Factor,
    planes: &mut [f32],
    edges: &mut [u8],
    scores: &mut [u32],
    scratch_f32: &mut [f32],
    scratch_u8: &mut [u8],
    scratch_u32: &mut [u32],
) -> Located
    requires fit { FitPlanes (least_located factor.value) b.height b.width planes.old }
    requires room { let s = lent planes.old edges.old scores.old scratch_f32.old scratch_u8.old scratch_u32.old in
        NoneShort b.height b.width s }
    ensures { let before = lent planes.old edges.old scores.old
        scratch_f32.old scratch_u8.old scratch_u32.old in
        let after = lent planes.new edges.new scores.new
        scratch_f32.new scratch_u8.new scratch_u32.new in
        Works b factor.value before result after }
{
    let l = narrowings::last_picture(factor, b.height, b.width, planes, edges, scratch_f32);
    if l.small {
        return declined(b.resized(l.height, l.width), Refusal::TooSmall, l.narrowed);
    }
    read_from(b, l, edges, scores, scratch_u8, scratch_u32)
}

// Locates the board in the lent planes; each narrowing has the factor. What is lent of the scratch slices beyond 01's lengths is kept.
pub fn get_pos_pixel(
    b: Board,
    factor: usize,
    planes: &mut [f32],
    edges: &mut [u8],
    scores: &mut [u32],
    scratch_f32: &mut [f32],
    scratch_u8: &mut [u8],
    scratch_u32: &mut [u32],
) -> Located
    ensures { let before = lent planes.old edges.old scores.old
        scratch_f32.old scratch_u8.old scratch_u32.old in
        let after = lent planes.new edges.new scores.new
        scratch_f32.new scratch_u8.new scratch_u32.new in
        LocateGives b factor before result after × Promise b factor before result after × CornersHold b result }
{
    let factor = match check(
        b,
        factor,
        planes,
        edges,
        scores,
        scratch_f32,
        scratch_u8,
        scratch_u32,
    ) {
        Ok(factor) => factor,
        Err(refusal) => return declined(b, refusal, 0),
    };
    let n = b.height * b.width;
    let m = 4 * (b.height + b.width);
    work(
        b,
        factor,
        planes,
        edges,
        scores,
        &mut scratch_f32[..n],
        &mut scratch_u8[..n],
        &mut scratch_u32[..m],
    )
}
