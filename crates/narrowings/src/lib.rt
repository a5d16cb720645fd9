// The loop of narrowings (01, "Locating", first paragraph; 02, R-1 and R-3): a screen is narrowed until both spans of its bounds are
// large enough, or until it is too small. Definitions: specs/Loop. Laws for callers: proofs/Turns.
#![tactic(auto)]

ghost use Rattle.std.specs.Prelude.{◌≡◌, ◌*◌, ◌≤◌, false, ◌&&◌, ltb, length};
ghost use Rattle.lists.specs.Front.{AtFront};
ghost use Rattle.board.specs.Board.{least_plane_side, least_located};
ghost use Rattle.board.specs.Inner.{FitPlanes};
ghost use Rattle.narrowings.specs.Loop as Spec;
ghost use Rattle.narrowings.specs.Loop.{edges_at, last_of};
ghost use Rattle.narrowings.specs.Inner.{Looks, Narrows};

use board::{Bounds, Factor};

// Row or column of a screen that is too small is at most this.
const SMALL: usize = 64;

// Whether row or column is at most 64.
#[tactic(auto, unfolding(crate::specs::Loop::small))]
fn small(height: usize, width: usize) -> bool
    requires { (2 ≤ height) × (2 ≤ width) }
    ensures { result ≡ Spec.small height width }
{
    height - 2 <= SMALL || width - 2 <= SMALL
}

// A picture of the loop: its sides, how often the screen was narrowed, whether it got too small by that, its threshold, and the bounds of
// its edge picture.
#[derive(Clone, Copy)]
pub struct Narrowed {
    pub height: usize,
    pub width: usize,
    pub narrowed: u32,
    pub small: bool,
    pub threshold: f32,
    pub bounds: Bounds,
}

impl Narrowed {
    // Whether a span of the bounds is at most a third of row or column.
    #[tactic(auto, unfolding(crate::specs::Loop::thin))]
    fn is_thin(&self) -> bool
        requires { let b = self.now.bounds in
            (2 ≤ self.now.height) × (2 ≤ self.now.width) × (b.r_1 ≤ b.r_2) × (b.c_1 ≤ b.c_2) }
        ensures { result ≡ Spec.thin self.now.height self.now.width self.now.bounds }
    {
        let b = self.bounds;
        b.r_2 - b.r_1 <= (self.height - 2) / 3 || b.c_2 - b.c_1 <= (self.width - 2) / 3
    }
}

// A look at a screen that was narrowed so often: threshold and bounds by its gradients, which go to the front of `scratch`. The bounds are
// those of the edge picture that they make by the threshold, which is not drawn yet. A screen as it was handed in is not too small.
#[tactic(auto, using(crate::proofs::Looking::gradients_fit, crate::proofs::Looking::looks_by))]
fn look(height: usize, width: usize, narrowed: u32, planes: &[f32], scratch: &mut [f32]) -> Narrowed
    requires { FitPlanes least_plane_side height width planes.now × (height * width ≤ length scratch.old) }
    ensures sides { (result.height ≡ height) × (result.width ≡ width) × (result.narrowed ≡ narrowed) }
    ensures too_small { result.small ≡ ltb 0 narrowed && Spec.small height width }
    ensures looks { Looks height width planes.now result.threshold result.bounds scratch.new }
{
    gradient::gradient_of(height, width, planes, scratch);
    let row = height - 2;
    let column = width - 2;
    let gradients = &scratch[..row * column];
    let threshold = edges::threshold_of(row, column, gradients);
    Narrowed {
        height,
        width,
        narrowed,
        small: 0 < narrowed && small(height, width),
        threshold,
        bounds: bounds::get_r12c12(gradients, threshold, row, column),
    }
}

// Narrows the screen by the factor until both spans of its bounds are large enough, or until it is too small. `start` is a look at the
// screen as it is, whose gradients stand at the front of `scratch`; afterwards those of the last picture stand there.
fn narrow_on(factor: Factor, start: Narrowed, planes: &mut [f32], scratch: &mut [f32]) -> Narrowed
    requires fit { FitPlanes (least_located factor.value) start.height start.width planes.old }
    requires first { (start.narrowed ≡ 0) × (start.small ≡ false) }
    requires looks { Looks start.height start.width planes.old start.threshold start.bounds scratch.old }
    requires room { start.height * start.width ≤ length scratch.old }
    ensures { let last = last_of factor.value start.height start.width planes.old in
        Narrows start.height start.width last result planes.new scratch.new }
{
    let mut last = start;
    while last.is_thin() {
        narrow::narrow(factor, last.height, last.width, planes, scratch);
        last = look(
            last.height / factor.value,
            last.width / factor.value,
            last.narrowed + 1,
            planes,
            scratch,
        );
        if last.small {
            return last;
        }
    }
    last
}

// The last picture. Its edge picture is drawn to the front of `edges`, once and when the loop has ended: nothing else is written there.
pub fn last_picture(
    factor: Factor,
    height: usize,
    width: usize,
    planes: &mut [f32],
    edges: &mut [u8],
    scratch: &mut [f32],
) -> Narrowed
    requires fit { FitPlanes (least_located factor.value) height width planes.old }
    requires room { (height * width ≤ length edges.old) × (height * width ≤ length scratch.old) }
    ensures { let last = last_of factor.value height width planes.old in
        Narrows height width last result planes.new scratch.new
        × AtFront (edges_at last.stage) edges.old edges.new }
{
    let start = look(height, width, 0, planes, scratch);
    let last = narrow_on(factor, start, planes, scratch);
    let n = (last.height - 2) * (last.width - 2);
    edges::mark(last.threshold, &scratch[..n], edges);
    last
}
