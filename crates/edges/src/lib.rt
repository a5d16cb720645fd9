// Threshold and edge bytes of a list of gradients (01, "Gradient and threshold", second paragraph).
// Definitions: specs/Edges; specs/Inner has those of the search for the threshold by counting. Laws for callers: proofs/Laws.
#![tactic(auto)]

ghost use Rattle.std.specs.Prelude.{◌≡◌, ◌^◌, ◌≤◌, length};
ghost use Rattle.lists.specs.Front.{AtFront};
ghost use Rattle.edges.specs.Edges.{rank_of, threshold, marks};
ghost use Rattle.edges.specs.Inner.{GradientsFit, ByBits};

mod gradients;
mod range;
mod search;

use gradients::{Gradients, Part};
use search::threshold_bits;

// The threshold's place among m sorted values.
#[tactic(auto, unfolding(crate::specs::Edges::rank_of))]
fn rank_of(m: usize) -> u64
    requires { m ≤ 2 ^ 22 }
    ensures { result ≡ rank_of m }
{
    binary32::trunc(m as f32 * 0.55)
}

// The threshold of gradients, `row` rows of `column` each.
#[tactic(auto, using(binary32::proofs::Plain::bits_number))]
pub fn threshold_of(row: usize, column: usize, g: &[f32]) -> f32
    requires sides_in { (2 ≤ row) × (2 ≤ column) }
    requires gradients_fit { GradientsFit row column g.now }
    ensures is { result ≡ threshold row column g.now }
    ensures by_bits { ByBits result g.now }
{
    let g = Gradients {
        row,
        column,
        values: g,
    };
    let rank = rank_of(g.size(Part::WHOLE));
    f32::from_bits(threshold_bits(&g, rank as u32))
}

// A byte for each gradient, 1 where it is at least the threshold, told by their bits.
pub fn mark(th: f32, g: &[f32], out: &mut [u8])
    requires room { length g.now ≤ length out.old }
    requires by_bits { ByBits th g.now }
    ensures { AtFront (marks th (length g.now) g.now) out.old out.new }
{
    let bits = th.to_bits();
    for (k, x) in g.iter().enumerate() {
        out[k] = u8::from(bits <= x.to_bits());
    }
}
