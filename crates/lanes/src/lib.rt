// Strips walked down row by row (01, "Path scores"): one by itself, and many side by side. The promises rest on specs/Score and specs/Walk;
// specs/Inner is for the code.
// Laws for callers: proofs/Walks (a score is that of the best walk), proofs/States (one row more, and the target lane at the end).
// A lane's state is 5 and the steps so far, less the least cost: a set point adds 1, a sideways move takes 1 off, and none falls below 1.
#![tactic(auto)]

ghost use Rattle.std.specs.Prelude.{◌≡◌, ℕ, ◌≤◌, ◌<◌, ◌+◌, ◌*◌, ◌-◌, max, length, get_or};
ghost use Rattle.lists.specs.Tab.{tab};
ghost use Rattle.lists.specs.Picture.{points};
ghost use Rattle.lanes.specs.Walk.{apart};
ghost use Rattle.lanes.specs.Score.{at, onward, score};
ghost use Rattle.lanes.specs.Inner.{Marks, LanesHold, Below, unset, Pointed, Advanced, lanes_of, Stored, swept_scores};

// One row of a strip: its five points lie `across` apart, the first at `at`.
#[derive(Clone, Copy)]
pub struct Row<'a> {
    pub edges: &'a [u8],
    pub at: usize,
    pub across: usize,
    ghost inside: { at + 4 * across < length edges.now },
    ghost marks: { Marks edges.now },
}

impl Row<'_> {
    // 1 where the point of lane j is set, else 0.
    fn point(&self, j: usize) -> u16
        requires { j ≤ 4 }
        ensures { result + unset self.now.edges.now (self.now.at + j * self.now.across) ≡ 1 }
    {
        u16::from(self.edges[self.at + j * self.across])
    }
}

// Lanes 0 to 4 of one strip.
#[derive(Clone, Copy)]
pub struct Lanes {
    pub a: u16,
    pub b: u16,
    pub c: u16,
    pub d: u16,
    pub e: u16,
}

// A lane from itself or from a lane beside it.
fn best(own: u16, left: u16, right: u16) -> u16
    ensures { result ≡ max own (max left right - 1) }
{
    own.max(left.max(right).saturating_sub(1))
}

// 5 less how far a lane lies from the target.
fn near(j: u16, k: u16) -> u16
    requires { (j ≤ 4) × (k ≤ 4) }
    ensures { result + apart j k ≡ 5 }
{
    5 - j.abs_diff(k)
}

// A score: what its lane holds above 5.
pub fn above(x: u16) -> u32
    requires { 5 ≤ x }
    ensures { result ≡ x - 5 }
{
    u32::from(x - 5)
}

impl Lanes {
    // The lanes before the first step to target lane k.
    pub fn start(k: u16) -> Self
        requires { k ≤ 4 }
        ensures { LanesHold 5 (λ j. apart j k) result }
    {
        Lanes {
            a: near(0, k),
            b: near(1, k),
            c: near(2, k),
            d: near(3, k),
            e: near(4, k),
        }
    }

    // Each lane with the point that it leaves from.
    fn with_points(self, row: &Row) -> Self
        requires { self.a + self.b + self.c + self.d + self.e ≤ 60000 }
        ensures { Pointed row.now.edges.now row.now.at row.now.across self result }
    {
        Lanes {
            a: self.a + row.point(0),
            b: self.b + row.point(1),
            c: self.c + row.point(2),
            d: self.d + row.point(3),
            e: self.e + row.point(4),
        }
    }

    // A border lane has one neighbour.
    fn sideways(self) -> Self
        ensures { (n : ℕ) (cost : ℕ → ℕ) → Below n cost → LanesHold n cost self → LanesHold n (onward cost) result }
    {
        Lanes {
            a: best(self.a, self.b, self.b),
            b: best(self.b, self.a, self.c),
            c: best(self.c, self.b, self.d),
            d: best(self.d, self.c, self.e),
            e: best(self.e, self.d, self.d),
        }
    }

    // One row on. The point of the new row is looked at in the old lane.
    pub fn advanced(self, row: &Row) -> Self
        requires { self.a + self.b + self.c + self.d + self.e ≤ 60000 }
        ensures { Advanced row.now.edges.now row.now.at row.now.across self result }
    {
        self.with_points(row).sideways()
    }

    pub fn lane(self, k: u16) -> u16
        requires { k ≤ 4 }
        ensures { (n : ℕ) (cost : ℕ → ℕ) → LanesHold n cost self → result + cost k ≡ n }
    {
        match k {
            0 => self.a,
            1 => self.b,
            2 => self.c,
            3 => self.d,
            _ => self.e,
        }
    }
}

// The lanes of up to 4096 strips, lane by lane: so the compiler packs the loop over the strips.
#[derive(Clone, Copy)]
struct Strips {
    a: [u16; 4096],
    b: [u16; 4096],
    c: [u16; 4096],
    d: [u16; 4096],
    e: [u16; 4096],
}

impl Strips {
    fn at(&self, i: usize) -> Lanes
        requires { i < 4096 }
        ensures { result ≡ lanes_of self.now i }
    {
        Lanes {
            a: self.a[i],
            b: self.b[i],
            c: self.c[i],
            d: self.d[i],
            e: self.e[i],
        }
    }

    fn put(&mut self, i: usize, v: Lanes)
        requires { i < 4096 }
        ensures { Stored self.old i v self.new }
    {
        self.a[i] = v.a;
        self.b[i] = v.b;
        self.c[i] = v.c;
        self.d[i] = v.d;
        self.e[i] = v.e;
    }

    // The first m strips before the first step.
    fn starts(&mut self, m: usize)
        requires { m ≤ 4096 }
        ensures { (i : ℕ) → i < m → LanesHold 5 (λ j. apart j 2) (lanes_of self.new i) }
    {
        for i in 0..m {
            self.put(i, Lanes::start(2));
        }
    }

    // What the middle lanes hold above 5.
    fn scores(&self, out: &mut [u32])
        requires { (length out.old ≤ 4096) × ((i : ℕ) → i < length out.old → 5 ≤ get_or self.now.c i 0) }
        ensures { out.new ≡ tab (length out.old) (λ i. get_or self.now.c i 0 - 5) }
    {
        for i in 0..out.len() {
            out[i] = above(self.c[i]);
        }
    }
}

// A picture of bytes 0 and 1 as its strips are walked, from row `from` down to row `to`: the point in row i and column j is the byte at
// i * down + j * across. Its columns end with column `last`.
#[derive(Clone, Copy)]
pub struct Picture<'a> {
    pub edges: &'a [u8],
    pub down: usize,
    pub across: usize,
    pub from: usize,
    pub to: usize,
    pub last: usize,
    ghost ahead: { from ≤ to },
    ghost bounded: { to ≤ 4096 },
    ghost inside: { to * down + last * across < length edges.now },
    ghost marks: { Marks edges.now },
}

impl Picture<'_> {
    // The strip from column c by itself, walked down row by row.
    pub fn strip_score(&self, c: usize, k: u16) -> u32
        requires { (c + 4 ≤ self.now.last) × (k ≤ 4) }
        ensures { result ≡ score (points self.now.down self.now.across self.now.edges.now) self.now.from self.now.to (at c k) }
    {
        let mut v = Lanes::start(k);
        for row in self.from..self.to {
            let at = (row + 1) * self.down + c * self.across;
            v = v.advanced(&Row {
                edges: self.edges,
                at,
                across: self.across,
            });
        }
        above(v.lane(k))
    }

    // The strips from column c on, one for each entry of `out`, all with target lane 2: side by side, so that each row of the picture is
    // read once.
    pub fn sweep_scores(&self, c: usize, out: &mut [u32])
        requires { (self.now.across ≡ 1) × (length out.old ≤ 4096) × (c + length out.old + 3 ≤ self.now.last) }
        ensures { out.new ≡ swept_scores (points self.now.down 1 self.now.edges.now) self.now.from self.now.to c (length out.old) }
    {
        let mut st = Strips {
            a: [0; 4096],
            b: [0; 4096],
            c: [0; 4096],
            d: [0; 4096],
            e: [0; 4096],
        };
        st.starts(out.len());
        for row in self.from..self.to {
            let at = (row + 1) * self.down + c;
            // the compiler packs this loop
            for i in 0..out.len() {
                let v = st.at(i).advanced(&Row {
                    edges: self.edges,
                    at: at + i,
                    across: 1,
                });
                st.put(i, v);
            }
        }
        st.scores(out);
    }
}
