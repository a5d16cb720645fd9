// Sampling every cell of a board by one check of the planes: neither 01 nor 02 has such a call. It refuses with 1, 3, 4, 10 and 11 as
// sampling a cell does, then with 11 for the counts and the size, 3 and 12, before it writes. Definitions: specs/Cells. Laws for
// callers: proofs/Laws (each cell is what sampling it gives).
#![tactic(auto)]

ghost use Rattle.std.specs.Prelude.{◌≡◌, ℕ, ◌*◌, ◌≤◌, true, length};
ghost use Rattle.lists.specs.Front.{AtFront};
ghost use Rattle.refusal.specs.Refusal.{answer_of};
ghost use Rattle.sample.specs.Sample.{record_answer};
ghost use Rattle.sample.specs.Inner.{RecordIn};
ghost use Rattle.cells.specs.Cells as Spec;
ghost use Rattle.cells.specs.Cells.{cells_answer, cells, BoardGives};
ghost use Rattle.cells.specs.Inner.{CountsIn};

use board::Board;
use refusal::Refusal;

// The most rows and columns of a board whose cells are all sampled.
const MOST_NUMBER: usize = 4096;

// Whether all places of all cells are in the picture. A cell's rows are those of its board row, and its columns those of its board column:
// so cells that have every board row and every board column among them are enough.
fn all_in_picture(b: Board, size: usize) -> bool
    requires record_fits { RecordIn b }
    requires counts_fit { CountsIn b size }
    ensures { result ≡ Spec.all_in_picture b size }
{
    if b.r * b.c == 0 {
        return true;
    }
    let larger = if b.r < b.c { b.c } else { b.r };
    for n in 0..larger {
        if !sample::in_picture(b, n % b.r, n % b.c, size) {
            return false;
        }
    }
    true
}

// Whether a count, or the size, is above its limit.
#[tactic(auto, unfolding(crate::specs::Cells::board_numbers_above))]
fn board_numbers_above(b: Board, size: usize) -> bool
    ensures { result ≡ Spec.board_numbers_above b size }
{
    MOST_NUMBER < b.r || MOST_NUMBER < b.c || Board::MOST_SIZE < size
}

// The refusals where record and planes are fit, for `room` entries of output.
#[tactic(auto, unfolding(crate::specs::Cells::cells_answer), using(crate::proofs::Cells::counts_in))]
fn check_cells(b: Board, size: usize, room: usize) -> Result<(), Refusal>
    requires { RecordIn b }
    ensures { answer_of result ≡ cells_answer b size room }
{
    if board_numbers_above(b, size) {
        return Err(Refusal::BadNumber);
    }
    if room < b.r * b.c * (3 * (size * size)) {
        return Err(Refusal::ShortSlice);
    }
    if !all_in_picture(b, size) {
        return Err(Refusal::Outside);
    }
    Ok(())
}

// The cells of a board that passed all checks.
fn copy_cells(b: Board, planes: &[f32], size: usize, out: &mut [f32])
    requires planes_there { 3 * (b.height * b.width) ≤ length planes.now }
    requires record_fits { record_answer b ≡ 0 }
    requires counts_fit { CountsIn b size }
    requires room { b.r * b.c * (3 * (size * size)) ≤ length out.old }
    requires within { Spec.all_in_picture b size ≡ true }
    ensures { AtFront (cells b planes.now size) out.old out.new }
{
    let m = 3 * (size * size);
    if m == 0 {
        return; // there can be sixteen million cells without a value
    }
    for n in 0..b.r * b.c {
        let at = n * m;
        sample::copy_cell(b, planes, n / b.c, n % b.c, size, &mut out[at..at + m]);
    }
}

// All cells of any record and planes: the cells at the start of `out`, or a refusal and nothing written.
#[tactic(auto, unfolding(crate::specs::Cells::board_answer), using(crate::proofs::Cells::cells_in, sample::proofs::Fit::fit_shown))]
pub fn sample_board(b: Board, planes: &[f32], size: usize, out: &mut [f32]) -> Result<(), Refusal>
    ensures { BoardGives b planes.now size out.old (answer_of result) out.new }
{
    sample::check_fit(b, planes)?;
    check_cells(b, size, out.len())?;
    copy_cells(b, planes, size, out);
    Ok(())
}
