// The board's bounds in an edge picture: the scan from the middle outwards, and the widening (01, "Bounds scan" and "Locating").
// The scan looks at few points, and whether a picture is the last one is known only after it (02, R-3): it takes the gradients and the
// threshold, so that no edge picture has to be made for it. Definitions: specs/Scan, specs/Widen, specs/Bounds; of the edge bytes:
// specs/Inner. Laws for callers: proofs/Laws.
#![tactic(auto)]

ghost use Rattle.std.specs.Prelude.{◌≡◌, ◌*◌, ◌≤◌, ◌<◌, ℕ, List, leb, eqb, length, get_or};
ghost use Rattle.lists.specs.Picture.{points};
ghost use Rattle.bounds.specs.Bounds as Spec;
ghost use Rattle.bounds.specs.Bounds.{bounds_of, BoundsIn};
ghost use Rattle.bounds.specs.Scan as Scan;
ghost use Rattle.bounds.specs.Scan.{skips, move, place, bound};
ghost use Rattle.bounds.specs.Inner.{seen, marks_by, low, high, Fits, Lies, columns_of, rows_of, below};
ghost use Rattle.bounds.specs.Widen.{second, pair, sum_at, lowered, widened};

use board::Bounds;
use std::alloc::AllocError;

// The way that a scan goes: towards place 0, or towards the last place.
#[derive(Clone, Copy, Debug, PartialEq, Eq)]
pub enum Way {
    Near,
    Far,
}

// A point of a scan: the distance that is left, and the place across.
#[derive(Clone, Copy)]
struct Spot {
    distance: usize,
    across: usize,
}

// The second point of a sum of the widening: the next one along the way, or the one before it across.
#[derive(Clone, Copy, Debug, PartialEq, Eq)]
enum Beside {
    Along,
    Across,
}

// The points of a picture in a slice: edge bytes, or what stands for them.
trait Points: Copy {
    ghost bytes: { Self → List ℕ };

    fn is_set_at(&self, at: usize) -> bool
        requires { at < length (bytes self.now) }
        ensures { result ≡ eqb (get_or (bytes self.now) at 0) 1 };
}

impl Points for &[u8] {
    ghost bytes = { λ e. e.now };

    fn is_set_at(&self, at: usize) -> bool {
        self[at] == 1
    }
}

// Gradients: a point is set if its gradient is at least the threshold.
#[derive(Clone, Copy)]
struct Steep<'a> {
    gradients: &'a [f32],
    threshold: f32,
}

impl<'a> Points for Steep<'a> {
    ghost bytes = { λ s. marks_by s.threshold s.gradients.now };

    #[tactic(auto, using(lists::proofs::Tab::length_tab_from, edges::proofs::Laws::mark_is))]
    fn is_set_at(&self, at: usize) -> bool {
        self.threshold <= self.gradients[at]
    }
}

// How a picture lies in its slice, seen along one way: `across` rows and `along` columns, with the point in row p and column q at
// p * down + q * right.
#[derive(Clone, Copy)]
struct Layout {
    way: Way,
    across: usize,
    along: usize,
    down: usize,
    right: usize,
}

// A picture, whose rows stand `stride` apart in its slice.
#[derive(Copy)]
struct Picture<P: Points> {
    points: P,
    row: usize,
    column: usize,
    stride: usize,
    ghost fits: { Fits row column stride (length (P.bytes points)) },
}

// A picture seen along one way.
#[derive(Copy)]
struct View<P: Points> {
    points: P,
    layout: Layout,
    ghost lies: { Lies layout (length (P.bytes points)) },
}

impl<P: Points> Clone for Picture<P> {
    fn clone(&self) -> Result<Self, AllocError> {
        Ok(*self)
    }
}

impl<P: Points> Clone for View<P> {
    fn clone(&self) -> Result<Self, AllocError> {
        Ok(*self)
    }
}

impl<P: Points> Picture<P> {
    // The picture seen along its rows, so that places are columns.
    fn columns(&self, way: Way) -> View<P>
        ensures points { result.points ≡ self.now.points }
        ensures layout { result.layout ≡ columns_of way self.now.row self.now.column self.now.stride }
    {
        View {
            points: self.points,
            layout: Layout {
                way,
                across: self.row,
                along: self.column,
                down: self.stride,
                right: 1,
            },
        }
    }

    // And along its columns, so that places are rows.
    fn rows(&self, way: Way) -> View<P>
        ensures points { result.points ≡ self.now.points }
        ensures layout { result.layout ≡ rows_of way self.now.row self.now.column self.now.stride }
    {
        View {
            points: self.points,
            layout: Layout {
                way,
                across: self.column,
                along: self.row,
                down: 1,
                right: self.stride,
            },
        }
    }
}

impl Layout {
    // The place at the distance m, and the distance of the place m: one rule does both.
    fn place_of(&self, m: usize) -> usize
        requires { m < self.now.along }
        ensures { result ≡ place self.now.way self.now.along m }
    {
        match self.way {
            Way::Near => m,
            Way::Far => self.along - 1 - m,
        }
    }
}

impl<P: Points> View<P> {
    // Whether the point at p across and at the distance m is set.
    #[tactic(auto, unfolding(crate::specs::Inner::seen, lists::specs::Picture::points))]
    fn is_set(&self, p: usize, m: usize) -> bool
        requires { (p < self.now.layout.across) × (m < self.now.layout.along) }
        ensures { result ≡ seen self.now.layout (P.bytes self.now.points) p m }
    {
        let q = self.layout.place_of(m);
        self.points
            .is_set_at(p * self.layout.down + q * self.layout.right)
    }

    // The place across of the fifth set point at the distance m, if there are so many in the middle third.
    fn fifth(&self, m: usize) -> Option<usize>
        requires { m < self.now.layout.along }
        ensures { let l = self.now.layout in
            result ≡ below (high l) (Scan.fifth (seen l (P.bytes self.now.points)) (low l) (high l) m) }
    {
        // set points to pass before the fifth
        let mut more: usize = 4;
        for p in self.layout.across / 3..2 * self.layout.across / 3 {
            if self.is_set(p, m) {
                if more == 0 {
                    return Some(p);
                }
                more -= 1;
            }
        }
        None
    }

    // The first skip of 1 to 3 from the distance m to five set points.
    fn skip_from(&self, m: usize) -> Option<Spot>
        requires { m < self.now.layout.along }
        ensures { let l = self.now.layout in
            result ≡ skips (seen l (P.bytes self.now.points)) (low l) (high l) m 1 3 }
    {
        for skip in 1..4 {
            if m <= skip {
                return None;
            }
            if let Some(across) = self.fifth(m - skip) {
                return Some(Spot {
                    distance: m - skip,
                    across,
                });
            }
        }
        None
    }

    // One move of the scan, to where it goes on.
    fn move_from(&self, at: Spot) -> Option<Spot>
        requires { (at.distance < self.now.layout.along) × (at.across < self.now.layout.across) }
        ensures { let l = self.now.layout in
            result ≡ move (seen l (P.bytes self.now.points)) (low l) (high l) at.distance at.across }
    {
        if at.distance == 0 {
            return None;
        }
        let next = at.distance - 1;
        if self.is_set(at.across, next) {
            return Some(Spot {
                distance: next,
                across: at.across,
            });
        }
        self.skip_from(at.distance)
    }

    // Where the scan from the middle stops. The distance falls with each move, so it ends for every picture.
    fn bound(&self) -> usize
        ensures { let l = self.now.layout in
            result ≡ bound l.way (points l.down l.right (P.bytes self.now.points)) l.across l.along }
    {
        let mut at = Spot {
            distance: self.layout.place_of(self.layout.along / 2),
            across: self.layout.across / 3,
        };
        while let Some(next) = self.move_from(at) {
            at = next;
        }
        self.layout.place_of(at.distance)
    }

    // Whether the point beside the one at p across and at the distance m is set.
    fn second_at(&self, beside: Beside, p: usize, m: usize) -> bool
        requires { (1 ≤ p) × (p < self.now.layout.across) × (1 ≤ m) × (m < self.now.layout.along) }
        ensures { result ≡ second beside (seen self.now.layout (P.bytes self.now.points)) p m }
    {
        match beside {
            Beside::Along => self.is_set(p, m - 1),
            Beside::Across => self.is_set(p - 1, m),
        }
    }

    // How many are set of the point at p across and at the distance m, and the one beside it.
    fn pair_at(&self, beside: Beside, p: usize, m: usize) -> usize
        requires { (1 ≤ p) × (p < self.now.layout.across) × (1 ≤ m) × (m < self.now.layout.along) }
        ensures { result ≡ pair beside (seen self.now.layout (P.bytes self.now.points)) m p }
    {
        self.is_set(p, m) as usize + self.second_at(beside, p, m) as usize
    }

    // Whether the sum over the middle third at the distance m is at most 2. It ends early where it is not.
    #[tactic(auto, using(crate::proofs::Widening::total_more))]
    fn is_clear(&self, beside: Beside, m: usize) -> bool
        requires { (3 ≤ self.now.layout.across) × (1 ≤ m) × (m < self.now.layout.along) }
        ensures { let l = self.now.layout in
            result ≡ leb (sum_at beside (seen l (P.bytes self.now.points)) l.across m) 2 }
    {
        let mut sum: usize = 0;
        for p in self.layout.across / 3..2 * self.layout.across / 3 {
            sum += self.pair_at(beside, p, m);
            if 2 < sum {
                return false;
            }
        }
        true
    }

    // The first distance from `from` down to 1 that is clear, else 1; 0 stays.
    #[tactic(auto, using(crate::proofs::Widening::lowered_more))]
    fn lowered_from(&self, beside: Beside, from: usize) -> usize
        requires { (3 ≤ self.now.layout.across) × (from < self.now.layout.along) }
        ensures { let l = self.now.layout in
            result ≡ lowered (sum_at beside (seen l (P.bytes self.now.points)) l.across) from }
    {
        for m in (2..=from).rev() {
            if self.is_clear(beside, m) {
                return m;
            }
        }
        from.min(1)
    }

    // The place c widened.
    #[tactic(auto, using(crate::proofs::Widening::lowered_le), unfolding(crate::specs::Inner::seen, crate::specs::Widen::widened))]
    fn widened(&self, beside: Beside, c: usize) -> usize
        requires { (3 ≤ self.now.layout.across) × (c < self.now.layout.along) }
        ensures { let l = self.now.layout in
            result ≡ widened beside l.way (points l.down l.right (P.bytes self.now.points)) l.across l.along c }
    {
        let from = self.layout.place_of(c);
        self.layout.place_of(self.lowered_from(beside, from))
    }
}

// The bounds of the edge picture of gradients, rows first (01, "Bounds scan").
#[tactic(auto, using(lists::proofs::Tab::length_tab_from, lists::proofs::Picture::flip_points))]
pub fn get_r12c12(g: &[f32], th: f32, row: usize, column: usize) -> Bounds
    requires { (1 ≤ row) × (row ≤ 4094) × (1 ≤ column) × (column ≤ 4094) × (row * column ≤ length g.now) }
    ensures { result ≡ bounds_of (points column 1 (marks_by th g.now)) row column }
{
    let picture = Picture {
        points: Steep {
            gradients: g,
            threshold: th,
        },
        row,
        column,
        stride: column,
    };
    Bounds {
        r_1: picture.rows(Way::Near).bound(),
        r_2: picture.rows(Way::Far).bound(),
        c_1: picture.columns(Way::Near).bound(),
        c_2: picture.columns(Way::Far).bound(),
    }
}

// Bounds widened in an edge picture whose rows are `stride` bytes long (01, "Locating"). The picture may be larger than row by column:
// so the unchanged Rust has it after a narrowing.
#[tactic(auto, using(lists::proofs::Picture::flip_points))]
pub fn widen(edges: &[u8], stride: usize, row: usize, column: usize, b: Bounds) -> Bounds
    requires { (3 ≤ row) × (row ≤ 4094) × (3 ≤ column) × (column ≤ 4094) × (column ≤ stride) × (row * stride ≤ length edges.now)
        × BoundsIn row column b }
    ensures { result ≡ Spec.widen (points stride 1 edges.now) row column b }
{
    let picture = Picture {
        points: edges,
        row,
        column,
        stride,
    };
    Bounds {
        r_1: picture.rows(Way::Near).widened(Beside::Along, b.r_1),
        r_2: picture.rows(Way::Far).widened(Beside::Along, b.r_2),
        c_1: picture.columns(Way::Near).widened(Beside::Across, b.c_1),
        c_2: picture.columns(Way::Far).widened(Beside::Along, b.c_2),
    }
}
