// Gradients and their sample, of which the threshold is an entry: how many values of it, or of a part of it, are at most another.
ghost use Rattle.std.specs.Prelude.{◌≡◌, ◌+◌, ◌*◌, ◌^◌, ◌≤◌, ◌<◌, length, get_or};
ghost use Rattle.std.specs.Float.{nan, binary32};
ghost use Rattle.std.specs.Float.Ieee.{to_bits};
ghost use Rattle.lists.specs.Tab.{tab};
ghost use Rattle.rank.specs.Inner.{count_at_most};
ghost use Rattle.edges.specs.Edges as Spec;
ghost use Rattle.edges.specs.Inner.{AllHeld, AllPlain, GradientsFit, start, taken};
ghost use Rattle.edges.specs.Inner as Inner;

// `row` rows of `column` gradients each.
#[derive(Clone, Copy)]
pub(crate) struct Gradients<'a> {
    pub(crate) row: usize,
    pub(crate) column: usize,
    pub(crate) values: &'a [f32],
    ghost fit: { GradientsFit row column values.now },
    ghost held: { AllHeld values.now },
}

// A part of the sample: one row in `every`, and of it one of `parts` parts.
#[derive(Clone, Copy)]
pub(crate) struct Part {
    every: usize,
    parts: usize,
    ghost every_in: { 1 ≤ every },
    ghost parts_in: { 1 ≤ parts },
}

impl Part {
    // All of the sample.
    pub(crate) const WHOLE: Part = Part { every: 1, parts: 1 };

    // What a guess counts over.
    pub(crate) const GUESSED: Part = Part {
        every: 6,
        parts: 11,
    };
}

// The extent of the middle half of a side.
fn middle(side: usize) -> usize
    requires { side ≤ 4094 }
    ensures { result ≡ Spec.middle side }
{
    3 * side / 4 - side / 4
}

// How many values of the row are at most the value with these bits. Plain values are ordered as their bits are, and the compiler packs
// comparisons of bits alone.
fn count_row(row: &[f32], bits: u32) -> u32
    requires few { length row.now ≤ 2048 }
    requires plain { AllPlain row.now }
    ensures is { result ≡ count_at_most (to_bits binary32) bits row.now }
    ensures few { result ≤ length row.now }
{
    let mut n: u32 = 0;
    for x in row {
        n += (x.to_bits() <= bits) as u32;
    }
    n
}

impl<'a> Gradients<'a> {
    // How many rows a part of the sample has.
    fn rows(&self, part: Part) -> usize
        ensures { (result ≡ taken part.every self.now.row) × (result ≤ 2048) }
    {
        middle(self.row) / part.every
    }

    // How many values each of them has.
    fn columns(&self, part: Part) -> usize
        ensures { (result ≡ taken part.parts self.now.column) × (result ≤ 2048) }
    {
        middle(self.column) / part.parts
    }

    // How many values a part has.
    #[tactic(auto, using(crate::proofs::Sample::length_part))]
    pub(crate) fn size(&self, part: Part) -> usize
        ensures is { result ≡ length (Inner.part part.every part.parts self.now.row self.now.column self.now.values.now) }
        ensures few { result ≤ 2 ^ 22 }
    {
        self.rows(part) * self.columns(part)
    }

    // Where row i of a part begins. It lies among the gradients.
    fn start(&self, part: Part, i: usize) -> usize
        requires { i < taken part.every self.now.row }
        ensures is { result ≡ start part.every part.parts self.now.row self.now.column i }
        ensures inside { result + taken part.parts self.now.column ≤ self.now.row * self.now.column }
    {
        let Part { every, parts } = part;
        let above = self.row / 4 + (every * i + i * i / 7 % every);
        above * self.column + (self.column / 4 + 3 * i % parts * self.columns(part))
    }

    // Row i of a part.
    #[tactic(auto, using(crate::proofs::Sample::row_is))]
    fn row_of(&self, part: Part, i: usize) -> &'a [f32]
        requires { i < taken part.every self.now.row }
        ensures is { result.now ≡ tab (taken part.parts self.now.column)
            (λ j. get_or self.now.values.now (start part.every part.parts self.now.row self.now.column i + j) nan) }
        ensures few { length result.now ≤ 2048 }
        ensures plain { AllPlain result.now }
    {
        let from = self.start(part, i);
        &self.values[from..from + self.columns(part)]
    }

    // How many values of a part are at most the value with these bits.
    #[tactic(auto, using(crate::proofs::Sample::count_row))]
    pub(crate) fn count_part(&self, part: Part, bits: u32) -> u32
        ensures { result
            ≡ count_at_most (to_bits binary32) bits
            (Inner.part part.every part.parts self.now.row self.now.column self.now.values.now) }
    {
        let mut count: u32 = 0;
        for i in 0..self.rows(part) {
            count += count_row(self.row_of(part, i), bits);
        }
        count
    }
}
