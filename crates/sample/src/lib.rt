// Sampling a cell of the board (01, "Cell sampling", and 02, R-2 and R-5). A call refuses with 1, 3, 4, 10, 11, 14, 3 and 12, in that
// order, before it writes. Definitions: specs/Sample, and specs/Fit (the checks that calls over a whole board start with); specs/Inner is
// for the inner functions. Laws for callers: proofs/Laws (the room that a cell takes).
#![tactic(auto)]

ghost use Rattle.std.specs.Prelude.{◌≡◌, ℕ, ◌+◌, ◌*◌, ◌≤◌, ◌<◌, ◌&&◌, length, get_or};
ghost use Rattle.lists.specs.Front.{AtFront};
ghost use Rattle.lists.specs.Tab.{tab, grid};
ghost use Rattle.refusal.specs.Refusal.{answer_of};
ghost use Rattle.sample.specs.Sample as Spec;
ghost use Rattle.sample.specs.Sample.{corner_above, record_answer, cell, cell_answer, SampleGives};
ghost use Rattle.sample.specs.Fit.{fit_answer};
ghost use Rattle.sample.specs.Inner.{CellGives, AxisIn, row_value, plane_value};

use board::Board;
use refusal::Refusal;

mod axis;

pub use axis::Axis;

// The most that a cell's numbers and a record's corner and offset may be.
const MOST_NUMBER: usize = 4096;

#[tactic(auto, unfolding(crate::specs::Sample::pitch_outside))]
fn pitch_outside(p: f32) -> bool
    ensures { result ≡ Spec.pitch_outside p }
{
    !(p >= 8.0 && p <= 200.0)
}

// Whether the corner or the offset of a record is above the most.
#[tactic(auto, unfolding(crate::specs::Sample::corner_above))]
fn corner_above(b: Board) -> bool
    ensures { result ≡ corner_above b }
{
    MOST_NUMBER < b.r_1 || MOST_NUMBER < b.c_1 || MOST_NUMBER < b.r0 || MOST_NUMBER < b.c0
}

// The refusals 10 and 11 of a record by itself.
#[tactic(auto, unfolding(crate::specs::Sample::record_answer))]
fn check_record(b: Board) -> Result<(), Refusal>
    ensures { answer_of result ≡ record_answer b }
{
    if pitch_outside(b.pixelr) || pitch_outside(b.pixelc) {
        return Err(Refusal::BadPitch);
    }
    if corner_above(b) {
        return Err(Refusal::BadNumber);
    }
    Ok(())
}

// Whether record and planes are fit for sampling, or why not. All planes are read.
#[tactic(auto, unfolding(crate::specs::Fit::fit_answer))]
pub fn check_fit(b: Board, planes: &[f32]) -> Result<(), Refusal>
    ensures { answer_of result ≡ fit_answer b planes.now }
{
    board::check_planes(Board::LEAST_PLANE_SIDE, b.height, b.width, planes, false)?;
    check_record(b)
}

// Of the record only the counts are looked at: a caller may have set them and no far corner.
#[tactic(auto, unfolding(crate::specs::Sample::on_board))]
fn on_board(b: Board, x: usize, y: usize) -> bool
    ensures { result ≡ Spec.on_board b x y }
{
    x < b.r && y < b.c
}

// Whether all places of a cell are in the picture.
pub fn in_picture(b: Board, x: usize, y: usize, size: usize) -> bool
    requires { AxisIn b.r_1 b.r0 x size × AxisIn b.c_1 b.c0 y size }
    ensures { result ≡ Spec.in_picture b x y size }
{
    Axis::rows(b, x, size).inside(b.height) && Axis::columns(b, y, size).inside(b.width)
}

// The refusals where the planes are fit: all is decided here, from numbers alone.
#[tactic(auto, unfolding(crate::specs::Sample::numbers_above, crate::specs::Sample::cell_answer), using(crate::proofs::Answers::record_in))]
fn check_cell(b: Board, x: usize, y: usize, size: usize, room: usize) -> Result<(), Refusal>
    ensures { answer_of result ≡ cell_answer b x y size room }
{
    check_record(b)?;
    if MOST_NUMBER < x || MOST_NUMBER < y || Board::MOST_SIZE < size {
        return Err(Refusal::BadNumber);
    }
    if !on_board(b, x, y) {
        return Err(Refusal::NotOnBoard);
    }
    if room < 3 * (size * size) {
        return Err(Refusal::ShortSlice);
    }
    if !in_picture(b, x, y, size) {
        return Err(Refusal::Outside);
    }
    Ok(())
}

// One row of a cell: the values of a picture's row at `columns`.
fn copy_row(row: &[f32], columns: &[usize], out: &mut [f32])
    requires room { length out.old ≡ length columns.now }
    requires places_in { (j : ℕ) → j < length columns.now → get_or columns.now j 0 < length row.now }
    ensures { out.new ≡ tab (length columns.now) (row_value row.now columns.now) }
{
    for (j, column) in columns.iter().enumerate() {
        out[j] = row[*column];
    }
}

// One plane of a cell: the values at `rows` and `columns` of a plane whose rows are `width` long.
fn copy_plane(plane: &[f32], width: usize, rows: &[usize], columns: &[usize], out: &mut [f32])
    requires room { length out.old ≡ length rows.now * length columns.now }
    requires rows_in { (i : ℕ) → i < length rows.now → get_or rows.now i 0 * width + width ≤ length plane.now }
    requires columns_in { (j : ℕ) → j < length columns.now → get_or columns.now j 0 < width }
    ensures { out.new ≡ grid (length rows.now) (length columns.now) (plane_value plane.now width rows.now columns.now) }
{
    let n = columns.len();
    for (i, row) in rows.iter().enumerate() {
        let from = row * width;
        let to = i * n;
        copy_row(&plane[from..from + width], columns, &mut out[to..to + n]);
    }
}

// The three planes of a cell whose places are in the picture.
pub fn copy_cell(b: Board, planes: &[f32], x: usize, y: usize, size: usize, out: &mut [f32])
    requires planes_there { 3 * (b.height * b.width) ≤ length planes.now }
    requires answered { cell_answer b x y size (length out.old) ≡ 0 }
    ensures { AtFront (cell b planes.now x y size) out.old out.new }
{
    let rows = Axis::rows(b, x, size).places();
    let columns = Axis::columns(b, y, size).places();
    let n = b.height * b.width;
    let m = size * size;
    for k in 0..3 {
        let from = k * n;
        let to = k * m;
        copy_plane(
            &planes[from..from + n],
            b.width,
            &rows[..size],
            &columns[..size],
            &mut out[to..to + m],
        );
    }
}

// A cell, without the check of plane values.
pub fn cell_of(
    b: Board,
    planes: &[f32],
    x: usize,
    y: usize,
    size: usize,
    out: &mut [f32],
) -> Result<(), Refusal>
    requires { 3 * (b.height * b.width) ≤ length planes.now }
    ensures { CellGives b planes.now x y size out.old (answer_of result) out.new }
{
    check_cell(b, x, y, size, out.len())?;
    copy_cell(b, planes, x, y, size, out);
    Ok(())
}

// A cell of any record and planes: the cell at the start of `out`, or a refusal and nothing written.
#[tactic(auto, unfolding(crate::specs::Sample::sample_answer), using(board::proofs::Planes::planes_fit))]
pub fn extra_save_cell(
    b: Board,
    planes: &[f32],
    x: usize,
    y: usize,
    size: usize,
    out: &mut [f32],
) -> Result<(), Refusal>
    ensures { SampleGives b planes.now x y size out.old (answer_of result) out.new }
{
    board::check_planes(Board::LEAST_PLANE_SIDE, b.height, b.width, planes, false)?;
    cell_of(b, planes, x, y, size, out)
}
