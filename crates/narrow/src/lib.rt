// Narrowing by a factor f from 2 to 5 (01, "Narrowing"; 02, R-1): each point of a narrowed plane is the median of its f by f block.
// Definitions: specs/Narrow; specs/Inner is for the inner functions. Laws for callers: proofs/Laws. It asks for planes that are fit, of
// any sides up to the largest: the order of units is that of their bits, so that it can pick by comparing bits. The blocks of several
// points of a row are picked from at once, a list each (crate select).
#![tactic(auto)]

ghost use Rattle.std.specs.Prelude.{◌≡◌, ◌+◌, ◌*◌, ◌/◌, ◌<◌, ◌≤◌, length, drop, replicate};
ghost use Rattle.std.specs.Float.{binary32};
ghost use Rattle.std.specs.Float.Ieee.{of_bits};
ghost use Rattle.lists.specs.Front.{AtFront};
ghost use Rattle.lists.specs.Inner.{Placed};
ghost use Rattle.select.specs.Inner.{list_count};
ghost use Rattle.board.specs.Screen.{view, packed};
ghost use Rattle.board.specs.Inner.{FitPlanes};
ghost use Rattle.narrow.specs.Narrow as Spec;
ghost use Rattle.narrow.specs.Narrow.{narrowed};
ghost use Rattle.narrow.specs.Inner.{row_of, run, UnitPlanes, PointsIn, Reached, Gathered};

use board::{Board, Factor};
use select::LIST_COUNT;

// The number of values of the largest block.
const ROOM: usize = Board::MOST_FACTOR * Board::MOST_FACTOR;

// Room for such blocks, a list each, of the bits of their values.
type Lists = [[u32; LIST_COUNT]; ROOM];

// The bits of the blocks of m neighbouring points, the first value at `at`: a list each, and nothing is said of the lists beyond. The
// factor is a constant, so that the compiler takes the values of neighbouring points apart several at a time.
fn gather_by<const F: usize>(
    planes: &[f32],
    at: usize,
    width: usize,
    m: usize,
    x: &mut [[u32; LIST_COUNT]],
)
    requires { Reached F m width at planes.now × (m ≤ list_count) × (F * F ≤ length x.old) }
    ensures { Gathered F m width at planes.now x.new }
{
    for u in 0..F {
        for l in 0..m {
            for v in 0..F {
                x[u * F + v][l] = planes[at + u * width + l * F + v].to_bits();
            }
        }
    }
}

// Planes of units, seen as blocks of `factor` by `factor` values.
#[derive(Clone, Copy)]
struct Blocks<'a> {
    factor: Factor,
    height: usize,
    width: usize,
    planes: &'a [f32],
    ghost fit: { UnitPlanes height width planes.now },
}

impl Blocks<'_> {
    ghost use Rattle.narrow.specs.Blocks.{points};

    // The blocks of m neighbouring points, the first value at `at`, by the factor at hand.
    fn gather(&self, at: usize, m: usize, x: &mut Lists)
        requires { Reached self.now.factor.value m self.now.width at self.now.planes.now × (m ≤ list_count) }
        ensures { Gathered self.now.factor.value m self.now.width at self.now.planes.now x.new }
    {
        match self.factor.value {
            2 => gather_by::<2>(self.planes, at, self.width, m, x),
            3 => gather_by::<3>(self.planes, at, self.width, m, x),
            4 => gather_by::<4>(self.planes, at, self.width, m, x),
            _ => gather_by::<5>(self.planes, at, self.width, m, x),
        }
    }

    // The m points from j on of row i of narrowed plane k.
    #[tactic(auto, using(crate::proofs::Block::reached, crate::proofs::Block::run_placed))]
    fn group(&self, k: usize, i: usize, j: usize, m: usize, x: &mut Lists, out: &mut [f32])
        requires points_in { PointsIn (points self.now) k i j m }
        requires room { (points self.now).width ≤ length out.old }
        ensures { Placed (run (points self.now) k i j m) j out.old out.new }
    {
        let f = self.factor.value;
        let at = k * (self.height * self.width) + (i * f * self.width + j * f);
        self.gather(at, m, x);
        select::medians(&mut x[..f * f], &mut out[j..j + m]);
    }

    // Row i of narrowed plane k, so many points at once as there are lists.
    fn row(&self, k: usize, i: usize, x: &mut Lists, out: &mut [f32])
        requires row_in { (k < 3) × (i < (points self.now).height) }
        requires room { (points self.now).width ≤ length out.old }
        ensures { AtFront (row_of (points self.now) k i) out.old out.new }
    {
        let columns = self.width / self.factor.value;
        for j in (0..columns).step_by(LIST_COUNT) {
            let m = LIST_COUNT.min(columns - j);
            self.group(k, i, j, m, x, out);
        }
    }
}

// The narrowed planes, one after another, row by row. Rows of the planes are cleared once they were read, while the processor has them
// at hand: clearing in a pass of its own would fetch them again. Where rows are left over, what is cleared lags behind what was read.
#[tactic(auto, using(crate::proofs::Rows::row_laws))]
fn narrow_planes(factor: Factor, height: usize, width: usize, planes: &mut [f32], out: &mut [f32])
    requires { FitPlanes 0 height width planes.old × (height * width ≤ length out.old) }
    ensures front { AtFront (packed (narrowed factor.value (view height width planes.old))) out.old out.new }
    ensures cleared { AtFront (replicate (3 * (height * width)) (of_bits binary32 0)) planes.old planes.new }
{
    let f = factor.value;
    let rows = height / f;
    let columns = width / f;
    let band = f * width;
    let mut x: Lists = [[0; LIST_COUNT]; ROOM];
    for r in 0..3 * rows {
        let blocks = Blocks {
            factor,
            height,
            width,
            planes: &planes[..],
        };
        blocks.row(r / rows, r % rows, &mut x, &mut out[r * columns..]);
        lists::clear_front(&mut planes[r * band..], band);
    }
    let cleared = 3 * rows * band;
    lists::clear_front(&mut planes[cleared..], 3 * (height * width) - cleared);
}

// Narrows the planes by the factor. The first height · width entries of `scratch` are free afterwards.
#[tactic(auto, using(crate::proofs::Rows::shrinks, crate::proofs::Rows::kept_behind))]
pub fn narrow(factor: Factor, height: usize, width: usize, planes: &mut [f32], scratch: &mut [f32])
    requires { FitPlanes 0 height width planes.old × (height * width ≤ length scratch.old) }
    ensures planes_after { planes.new ≡ Spec.narrow factor.value height width planes.old }
    ensures scratch_unchanged { drop (height * width) scratch.new ≡ drop (height * width) scratch.old }
{
    narrow_planes(factor, height, width, planes, scratch);
    let f = factor.value;
    let n = 3 * (height / f * (width / f));
    lists::copy_front(scratch, n, planes);
}
