// Column and row scores (01, "Path scores"; 02, R-4). Their promises rest on specs/Strip; walking strips down is the crate
// lanes. Laws for callers: proofs/Scores, and that each column has one score, in order: proofs/Columns.
#![tactic(auto)]

ghost use Rattle.std.specs.Prelude.{◌≡◌, ◌≤◌, ◌<◌, ◌+◌, ◌*◌, ◌-◌, length};
ghost use Rattle.lists.specs.Front.{AtFront};
ghost use Rattle.lists.specs.Picture.{points};
ghost use Rattle.lanes.specs.Inner.{swept_scores};
ghost use Rattle.strips.specs.Strip.{column_scores, row_scores};
ghost use Rattle.strips.specs.Inner.{place_count, Scorable, two_scores, bordered, RowsTurned, Turned};

use board::Bounds;
use lanes::Picture;

// Bounds in a picture of marks whose rows stand `stride` apart, wide and high enough to be scored.
#[derive(Clone, Copy)]
pub struct Region<'a> {
    pub edges: &'a [u8],
    pub stride: usize,
    pub bounds: Bounds,
    pub ghost scorable: { Scorable edges.now stride bounds },
}

// Target lanes k and k + 1 of one strip, on either axis, into entries i and i + 1.
fn two_scores(p: &Picture, c: usize, k: u16, i: usize, out: &mut [u32])
    requires { (c + 4 ≤ p.now.last) × (k ≤ 3) × (i + 1 < length out.old) }
    ensures { out.new ≡ two_scores (points p.now.down p.now.across p.now.edges.now) p.now.from p.now.to c k i out.old }
{
    out[i] = p.strip_score(c, k);
    out[i + 1] = p.strip_score(c, k + 1);
}

// How many places are scored over columns c_1 to c_2 (or rows): as many as a score list has entries.
#[tactic(auto, using(crate::proofs::Scores::place_count_lem))]
pub fn place_count(c_1: usize, c_2: usize) -> usize
    requires { (c_1 + 4 ≤ c_2) × (c_2 ≤ 4096) }
    ensures { result ≡ place_count c_1 c_2 }
{
    c_2 - c_1 + 1
}

// The first strip's lanes 0 and 1 into the first two entries, the last strip's lanes 3 and 4 into entries `last` and `last` + 1.
fn border_scores(p: &Picture, c_1: usize, last: usize, out: &mut [u32])
    requires { (c_1 + 4 ≤ p.now.last) × (last + 1 < length out.old) }
    ensures { out.new
        ≡ bordered (points p.now.down p.now.across p.now.edges.now) p.now.from p.now.to c_1 p.now.last last out.old }
{
    two_scores(p, c_1, 0, 0, out);
    two_scores(p, p.last - 4, 3, last, out);
}

// A block of a picture: `height` rows of `width` bytes, `stride` apart, the first at `first`.
#[derive(Clone, Copy)]
struct Block<'a> {
    edges: &'a [u8],
    first: usize,
    stride: usize,
    width: usize,
    height: usize,
    ghost inside: { first + height * stride + width ≤ length edges.now + stride },
}

impl Block<'_> {
    // Places i to i + w of each row of the turned block, which has rows of `height` bytes.
    fn turn_rows(&self, i: usize, w: usize, t: &mut [u8])
        requires { (i + w ≤ self.now.height) × (self.now.width * self.now.height ≤ length t.old) }
        ensures { RowsTurned self.now.edges.now self.now.first self.now.stride self.now.width self.now.height i w t.old t.new }
    {
        for j in 0..self.width {
            let at = j * self.height + i;
            for d in 0..w {
                t[at + d] = self.edges[self.first + (i + d) * self.stride + j];
            }
        }
    }

    // `width` rows of `height` bytes, eight at a time after those left over: the compiler unrolls that, and wide pictures stay fast.
    fn turn(&self, t: &mut [u8])
        requires { self.now.width * self.now.height ≤ length t.old }
        ensures { Turned self.now.edges.now self.now.first self.now.stride self.now.width self.now.height self.now.height t.new }
    {
        let rest = self.height % 8;
        self.turn_rows(0, rest, t);
        for i in (rest..self.height).step_by(8) {
            self.turn_rows(i, 8, t);
        }
    }
}

// Row strips from row r on, one for each entry of `out`, with the picture's rows as its columns: turned, they are column strips.
fn band_scores(p: &Picture, r: usize, turned: &mut [u8], out: &mut [u32])
    requires { (p.now.down ≡ 1) × (length out.old ≤ 4096) × (r + length out.old + 3 ≤ p.now.last)
        × ((p.now.to - p.now.from + 1) * (length out.old + 4) ≤ length turned.old) }
    ensures { out.new ≡ swept_scores (points 1 p.now.across p.now.edges.now) p.now.from p.now.to r (length out.old) }
{
    let width = p.to - p.from + 1;
    let height = out.len() + 4;
    let end = width * height;
    let block = Block {
        edges: p.edges,
        first: r * p.across + p.from,
        stride: p.across,
        width,
        height,
    };
    block.turn(turned);
    let columns = Picture {
        edges: &turned[..end],
        down: height,
        across: 1,
        from: 0,
        to: p.to - p.from,
        last: height - 1,
    };
    columns.sweep_scores(0, out);
}

// The same in bands of at most 128 strips: a turned band and its states then stay in the cache.
fn banded_scores(p: &Picture, r: usize, turned: &mut [u8], out: &mut [u32])
    requires { (p.now.down ≡ 1) × (r ≤ 4096) × (r + length out.old + 3 ≤ p.now.last)
        × ((p.now.to - p.now.from + 1) * (length out.old + 4) ≤ length turned.old) }
    ensures { out.new ≡ swept_scores (points 1 p.now.across p.now.edges.now) p.now.from p.now.to r (length out.old) }
{
    for i in (0..out.len()).step_by(128) {
        let end = (i + 128).min(out.len());
        band_scores(p, r + i, turned, &mut out[i..end]);
    }
}

impl Region<'_> {
    // The scores of columns c_1 to c_2 over rows r_1 to r_2; the points lie rows first, `stride` to a row.
    #[tactic(auto, using(crate::proofs::Scores::count_least, crate::proofs::Scores::count_most))]
    pub fn column_scores(&self, out: &mut [u32])
        requires { place_count self.now.bounds.c_1 self.now.bounds.c_2 ≤ length out.old }
        ensures { AtFront (column_scores (points self.now.stride 1 self.now.edges.now) self.now.bounds) out.old out.new }
    {
        let b = self.bounds;
        let p = Picture {
            edges: self.edges,
            down: self.stride,
            across: 1,
            from: b.r_1,
            to: b.r_2,
            last: b.c_2,
        };
        let last = place_count(b.c_1, b.c_2) - 2;
        p.sweep_scores(b.c_1, &mut out[2..last]);
        border_scores(&p, b.c_1, last, out);
    }

    // The scores of rows r_1 to r_2 over columns c_1 to c_2: the columns of the flipped picture. `turned` is scratch.
    #[tactic(auto, using(crate::proofs::Scores::count_least, crate::proofs::Scores::count_most))]
    pub fn row_scores(&self, turned: &mut [u8], out: &mut [u32])
        requires { let b = self.now.bounds in
            ((b.c_2 - b.c_1 + 1) * place_count b.r_1 b.r_2 ≤ length turned.old) × (place_count b.r_1 b.r_2 ≤ length out.old) }
        ensures { AtFront (row_scores (points self.now.stride 1 self.now.edges.now) self.now.bounds) out.old out.new }
    {
        let b = self.bounds;
        let p = Picture {
            edges: self.edges,
            down: 1,
            across: self.stride,
            from: b.c_1,
            to: b.c_2,
            last: b.r_2,
        };
        let last = place_count(b.r_1, b.r_2) - 2;
        banded_scores(&p, b.r_1, turned, &mut out[2..last]);
        border_scores(&p, b.r_1, last, out);
    }
}
