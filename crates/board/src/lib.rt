// The board record (01, Load; 02, R-5), its limits and its planes, the limits of the factor (02, R-1), and the answers 1, 3 and 4 to planes
// that are not fit. Definitions: specs/Board, specs/Planes, specs/Screen. Laws for callers: proofs/Sides, proofs/Planes (what an answer of
// 0 shows), proofs/Units.
#![tactic(auto)]

ghost use Rattle.std.specs.Prelude.{◌≡◌};
ghost use Rattle.refusal.specs.Refusal.{answer_of};
ghost use Rattle.board.specs.Board as Spec;
ghost use Rattle.board.specs.Board.{LimitsAre, FactorsAre};
ghost use Rattle.board.specs.Planes.{planes_answer};
ghost use Rattle.board.specs.Screen.{channel_of};

use refusal::Refusal;

mod factor;
mod values;

pub use factor::Factor;
pub use values::all_units;

// The board: its sides, its corner and its far corner, the offsets from the corner at which the grid of cells begins, its counts of rows
// and columns, and its pitches.
#[repr(C)]
#[derive(Clone, Copy, Default)]
pub struct Board {
    pub height: usize,
    pub width: usize,
    pub r_1: usize,
    pub c_1: usize,
    pub r_2: usize,
    pub c_2: usize,
    pub r0: usize,
    pub c0: usize,
    pub r: usize,
    pub c: usize,
    pub pixelr: f32,
    pub pixelc: f32,
}

// Rows r_1 to r_2 and columns c_1 to c_2 of a picture.
#[repr(C)]
#[derive(Clone, Copy)]
pub struct Bounds {
    pub r_1: usize,
    pub r_2: usize,
    pub c_1: usize,
    pub c_2: usize,
}

// The cells along one axis: the offset from the corner at which their grid begins, how many there are, and their pitch.
#[derive(Clone, Copy)]
pub struct Spacing {
    pub offset: usize,
    pub count: usize,
    pub pitch: f32,
}

impl Board {
    // Sides that are loaded.
    pub const LEAST_SIDE: usize = 12;

    // Sides of planes that have a gradient, a channel and samples.
    pub const LEAST_PLANE_SIDE: usize = 4;

    pub const MOST_SIDE: usize = 4096;

    // The side of a cell's sample.
    pub const MOST_SIZE: usize = 24;

    // Factors of a narrowing.
    pub const LEAST_FACTOR: usize = 2;

    pub const MOST_FACTOR: usize = 5;

    // A record of these sides with zeros in the other ten fields. That the limits above are the definitions' is
    // stated here: a constant has no contract of its own.
    pub fn fresh(height: usize, width: usize) -> Self
        ensures value { result ≡ Spec.fresh height width }
        ensures limits { LimitsAre Self.LEAST_SIDE Self.LEAST_PLANE_SIDE Self.MOST_SIDE Self.MOST_SIZE }
        ensures factors { FactorsAre Self.LEAST_FACTOR Self.MOST_FACTOR }
    {
        Board {
            height,
            width,
            ..Board::default()
        }
    }

    // The record with other sides.
    pub fn resized(self, height: usize, width: usize) -> Self
        ensures { result ≡ Spec.resized self height width }
    {
        Board {
            height,
            width,
            ..self
        }
    }

    // The record with what was read: both corners, and the cells of both axes. The sides stay.
    pub fn with_reading(self, bounds: Bounds, rows: Spacing, columns: Spacing) -> Self
        ensures { result ≡ Spec.with_reading self bounds rows columns }
    {
        Board {
            r_1: bounds.r_1,
            c_1: bounds.c_1,
            r_2: bounds.r_2,
            c_2: bounds.c_2,
            r0: rows.offset,
            c0: columns.offset,
            r: rows.count,
            c: columns.count,
            pixelr: rows.pitch,
            pixelc: columns.pitch,
            ..self
        }
    }
}

// Whether a number is below `least` or above `most`.
#[tactic(auto, unfolding(crate::specs::Board::outside))]
fn outside(least: usize, most: usize, n: usize) -> bool
    ensures { result ≡ Spec.outside least most n }
{
    !(least..=most).contains(&n)
}

// Whether a side is below `least` or above the largest.
#[tactic(auto, unfolding(crate::specs::Board::sides_outside))]
pub fn sides_outside(least: usize, height: usize, width: usize) -> bool
    ensures { result ≡ Spec.sides_outside least height width }
{
    outside(least, Board::MOST_SIDE, height) || outside(least, Board::MOST_SIDE, width)
}

// Whether planes of these sides are fit: it refuses 1, 3 and 4. `short` tells whether another slice is short; with sides outside
// the limits it is not looked at.
#[tactic(auto, unfolding(crate::specs::Planes::planes_answer), using(crate::proofs::Sides::sides_in))]
pub fn check_planes(
    least: usize,
    height: usize,
    width: usize,
    planes: &[f32],
    short: bool,
) -> Result<(), Refusal>
    ensures { answer_of result ≡ planes_answer least height width planes.now short }
{
    if sides_outside(least, height, width) {
        return Err(Refusal::BadSide);
    }
    let n = 3 * (height * width);
    if planes.len() < n || short {
        return Err(Refusal::ShortSlice);
    }
    if !all_units(planes, n) {
        return Err(Refusal::BadValue);
    }
    Ok(())
}

// Whether plane k of these sides stands among `len` values.
#[tactic(auto, unfolding(crate::specs::Board::has_channel), using(crate::proofs::Sides::sides_in))]
fn has_channel(height: usize, width: usize, len: usize, k: usize) -> bool
    ensures { result ≡ Spec.has_channel height width len k }
{
    k <= 2 && !sides_outside(Board::LEAST_PLANE_SIDE, height, width) && 3 * (height * width) <= len
}

// The plane of one channel, a part of the lent planes; empty if k is above 2, a side is out of bounds or the planes are short.
#[tactic(auto, unfolding(crate::specs::Screen::channel_of), using(crate::proofs::Sides::stands))]
pub fn channel(height: usize, width: usize, planes: &[f32], k: usize) -> &[f32]
    ensures { result.now ≡ channel_of height width planes.now k }
{
    if has_channel(height, width, planes.len(), k) {
        let n = height * width;
        let from = k * n;
        let end = from + n;
        return &planes[from..end];
    }
    &planes[0..0]
}
