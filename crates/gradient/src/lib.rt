// Gradient of three planes: the largest of six magnitudes at each point (01, "Gradient and threshold"). The call refuses 1, 3 and 4.
// Definitions: specs/Gradient. Laws for callers: proofs/Laws.
#![tactic(auto)]

ghost use Rattle.std.specs.Prelude.{◌≡◌, false, ◌-◌, ◌*◌, ◌≤◌, ltb, length};
ghost use Rattle.lists.specs.Front.{AtFront};
ghost use Rattle.refusal.specs.Refusal.{answer_of};
ghost use Rattle.board.specs.Board.{least_plane_side, sides_outside};
ghost use Rattle.board.specs.Inner.{FitPlanes};
ghost use Rattle.gradient.specs.Gradient.{gradients, GradientGives};

mod planes;
mod square;

use board::Board;
use planes::Planes;
use refusal::Refusal;

// The gradients of planes that are known to be fit.
pub fn gradient_of(height: usize, width: usize, planes: &[f32], out: &mut [f32])
    requires { FitPlanes least_plane_side height width planes.now × ((height - 2) * (width - 2) ≤ length out.old) }
    ensures { AtFront (gradients height width planes.now) out.old out.new }
{
    let planes = Planes {
        height,
        width,
        values: planes,
    };
    let row = height - 2;
    let column = width - 2;
    for i in 0..row {
        for j in 0..column {
            out[i * column + j] = planes.steepest(i, j);
        }
    }
}

// Whether `room` entries are too few for the gradients. The sides are tested first: outside the limits their product could wrap.
#[tactic(auto, using(board::proofs::Sides::sides_in, crate::proofs::Laws::inner_le))]
fn room_short(height: usize, width: usize, room: usize) -> bool
    ensures { sides_outside least_plane_side height width ≡ false → result ≡ ltb room ((height - 2) * (width - 2)) }
{
    !board::sides_outside(Board::LEAST_PLANE_SIDE, height, width)
        && room < (height - 2) * (width - 2)
}

// Gradient of three planes into `out`, rows first. Refuses 1, 3 and 4; then nothing is written.
pub fn get_gradient(
    height: usize,
    width: usize,
    planes: &[f32],
    out: &mut [f32],
) -> Result<(), Refusal>
    ensures { GradientGives height width planes.now out.old (answer_of result) out.new }
{
    let short = room_short(height, width, out.len());
    board::check_planes(Board::LEAST_PLANE_SIDE, height, width, planes, short)?;
    gradient_of(height, width, planes, out);
    Ok(())
}
