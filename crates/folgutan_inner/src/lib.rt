// Inner steps for tests and benchmarks alone: in no header. What a function requires, its caller makes sure of.
#![tactic(auto)]

ghost use Rattle.std.specs.Prelude.{◌+◌, ◌-◌, ◌*◌, take, drop, ◌≡◌, not, ◌≤◌, ◌^◌, T, length};
ghost use Rattle.lists.specs.Picture.{points};
ghost use Rattle.board.specs.Board.{least_plane_side};
ghost use Rattle.board.specs.Planes.{all_units};
ghost use Rattle.board.specs.Inner.{FactorIn, FitPlanes};
ghost use Rattle.lists.specs.Front.{AtFront};
ghost use Rattle.gradient.specs.Gradient.{gradients};
ghost use Rattle.edges.specs.Edges.{marked};
ghost use Rattle.edges.specs.Inner.{GradientsFit};
ghost use Rattle.narrow.specs.Narrow as Narrow;
ghost use Rattle.bounds.specs.Bounds.{bounds_of, BoundsIn};
ghost use Rattle.bounds.specs.Bounds as BoundsSpec;
ghost use Rattle.bounds.specs.Inner.{marks_by};
ghost use Rattle.strips.specs.Strip.{column_scores, row_scores};
ghost use Rattle.strips.specs.Inner.{place_count, Scorable};
ghost use Rattle.lines.specs.Lines.{smooth};
ghost use Rattle.lines.specs.Inner.{InLimits};
ghost use Rattle.sample.specs.Inner.{CellGives};
ghost use Rattle.std.specs.Float.Ieee.{is_nan};
ghost use Rattle.binary32.specs.Binary32 as Binary32;
ghost use Rattle.rank.specs.Rank.{self, entry};
ghost use Rattle.rank.specs.Inner.{count_at_most};

use board::{Board, Bounds, Factor};
use lines::Small;
use strips::Region;

#[unsafe(no_mangle)]
pub extern "C" fn folgutan_inner_unit(x: f32) -> bool
    ensures { result ≡ Binary32.unit x }
{
    binary32::unit(x)
}

#[unsafe(no_mangle)]
pub extern "C" fn folgutan_inner_magnitude(x: f32) -> f32
    requires { T (not (is_nan x)) }
    ensures { result ≡ Binary32.magnitude x }
{
    binary32::magnitude(x)
}

#[unsafe(no_mangle)]
pub extern "C" fn folgutan_inner_larger(a: f32, b: f32) -> f32
    ensures { result ≡ Binary32.larger a b }
{
    binary32::larger(a, b)
}

#[unsafe(no_mangle)]
pub extern "C" fn folgutan_inner_truncated(x: f32) -> u64
    ensures { result ≡ Binary32.trunc x }
{
    binary32::trunc(x)
}

#[unsafe(no_mangle)]
pub extern "C" fn folgutan_inner_entry(list: &[u32], j: usize, most: u32) -> u32
    requires { (length list.now ≤ 2 ^ 24) × (count_at_most self most list.now ≡ length list.now) }
    ensures { result ≡ entry self 0 list.now j }
{
    rank::entry_of(list, j, most)
}

#[unsafe(no_mangle)]
pub extern "C" fn folgutan_inner_all_units(planes: &[f32], n: usize) -> bool
    requires { (n ≤ length planes.now) × (n ≤ 2 ^ 26) }
    ensures { result ≡ all_units (take n planes.now) }
{
    board::all_units(planes, n)
}

#[unsafe(no_mangle)]
pub extern "C" fn folgutan_inner_gradient_of(
    height: usize,
    width: usize,
    planes: &[f32],
    out: &mut [f32],
)
    requires { FitPlanes least_plane_side height width planes.now × ((height - 2) * (width - 2) ≤ length out.old) }
    ensures { AtFront (gradients height width planes.now) out.old out.new }
{
    gradient::gradient_of(height, width, planes, out)
}

#[unsafe(no_mangle)]
pub extern "C" fn folgutan_inner_edges(row: usize, column: usize, g: &[f32], out: &mut [u8])
    requires { (2 ≤ row) × (2 ≤ column) × GradientsFit row column g.now × (row * column ≤ length out.old) }
    ensures { AtFront (marked row column g.now) out.old out.new }
{
    let th = edges::threshold_of(row, column, g);
    edges::mark(th, g, out)
}

#[unsafe(no_mangle)]
pub extern "C" fn folgutan_inner_narrow(
    f: usize,
    height: usize,
    width: usize,
    planes: &mut [f32],
    scratch: &mut [f32],
)
    requires { FitPlanes 0 height width planes.old × FactorIn f × (height * width ≤ length scratch.old) }
    ensures planes_after { planes.new ≡ Narrow.narrow f height width planes.old }
    ensures scratch_unchanged { drop (height * width) scratch.new ≡ drop (height * width) scratch.old }
{
    narrow::narrow(Factor { value: f }, height, width, planes, scratch)
}

#[unsafe(no_mangle)]
pub extern "C" fn folgutan_inner_bounds(g: &[f32], th: f32, row: usize, column: usize) -> Bounds
    requires { (1 ≤ row) × (row ≤ 4094) × (1 ≤ column) × (column ≤ 4094) × (row * column ≤ length g.now) }
    ensures { result ≡ bounds_of (points column 1 (marks_by th g.now)) row column }
{
    bounds::get_r12c12(g, th, row, column)
}

#[unsafe(no_mangle)]
pub extern "C" fn folgutan_inner_widen(
    edges: &[u8],
    stride: usize,
    row: usize,
    column: usize,
    b: Bounds,
) -> Bounds
    requires { (3 ≤ row) × (row ≤ 4094) × (3 ≤ column) × (column ≤ 4094) × (column ≤ stride) × (row * stride ≤ length edges.now)
        × BoundsIn row column b }
    ensures { result ≡ BoundsSpec.widen (points stride 1 edges.now) row column b }
{
    bounds::widen(edges, stride, row, column, b)
}

#[unsafe(no_mangle)]
pub extern "C" fn folgutan_inner_column_scores(
    edges: &[u8],
    stride: usize,
    b: Bounds,
    out: &mut [u32],
)
    requires { Scorable edges.now stride b × (place_count b.c_1 b.c_2 ≤ length out.old) }
    ensures { AtFront (column_scores (points stride 1 edges.now) b) out.old out.new }
{
    let region = Region {
        edges,
        stride,
        bounds: b,
    };
    region.column_scores(out)
}

#[unsafe(no_mangle)]
pub extern "C" fn folgutan_inner_row_scores(
    edges: &[u8],
    stride: usize,
    b: Bounds,
    turned: &mut [u8],
    out: &mut [u32],
)
    requires { Scorable edges.now stride b
        × ((b.c_2 - b.c_1 + 1) * place_count b.r_1 b.r_2 ≤ length turned.old)
        × (place_count b.r_1 b.r_2 ≤ length out.old) }
    ensures { AtFront (row_scores (points stride 1 edges.now) b) out.old out.new }
{
    let region = Region {
        edges,
        stride,
        bounds: b,
    };
    region.row_scores(turned, out)
}

#[unsafe(no_mangle)]
pub extern "C" fn folgutan_inner_smooth(list: &[u32], out: &mut [u32])
    requires { InLimits list.now × (length list.now ≤ length out.old) }
    ensures { AtFront (smooth list.now) out.old out.new }
{
    let scores = Small { values: list };
    scores.smooth_into(out)
}

#[unsafe(no_mangle)]
pub extern "C" fn folgutan_inner_sample(
    b: Board,
    planes: &[f32],
    x: usize,
    y: usize,
    size: usize,
    out: &mut [f32],
) -> u32
    requires { 3 * (b.height * b.width) ≤ length planes.now }
    ensures { CellGives b planes.now x y size out.old result out.new }
{
    refusal::answer_of(sample::cell_of(b, planes, x, y, size, out))
}
