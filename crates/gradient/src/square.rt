// The square of 3 by 3 values below and to the right of a point, and the slopes across it.
ghost use Rattle.std.specs.Prelude.{◌≡◌, ◌+◌, ◌*◌, ◌<◌, ◌≤◌, length};
ghost use Rattle.std.specs.Float.{binary32};
ghost use Rattle.std.specs.Float.Ieee.{to_bits};
ghost use Rattle.binary32.specs.Binary32.{magnitude};
ghost use Rattle.gradient.specs.Gradient as Spec;
ghost use Rattle.gradient.specs.Gradient.{row_sum};
ghost use Rattle.gradient.specs.Inner.{square, UnitsTo};

// From place `at` on; the next row is `down` further and the next column `right`.
#[derive(Clone, Copy)]
pub(crate) struct Square<'a> {
    pub(crate) values: &'a [f32],
    pub(crate) at: usize,
    pub(crate) down: usize,
    pub(crate) right: usize,
    ghost inside: { at + (2 * down + 2 * right) < length values.now },
    ghost units: { UnitsTo values.now (at + (2 * down + 2 * right)) },
}

#[tactic(auto, unfolding(crate::specs::Gradient::difference))]
fn difference(a: f32, b: f32, c: f32, d: f32, e: f32, f: f32) -> f32
    ensures { result ≡ Spec.difference a b c d e f }
{
    -a - b - c + d + e + f
}

impl<'a> Square<'a> {
    // The magnitude of the sum: the top row taken away, then the bottom row added.
    fn slope(&self) -> f32
        ensures is { result ≡ magnitude (row_sum (square self.now.values.now self.now.at self.now.down self.now.right) 0 0) }
        ensures plain { to_bits binary32 result ≤ 0x7F800000 }
    {
        let Square {
            values,
            at,
            down,
            right,
        } = *self;
        let low = at + 2 * down;
        binary32::magnitude(difference(
            values[at],
            values[at + right],
            values[at + 2 * right],
            values[low],
            values[low + right],
            values[low + 2 * right],
        ))
    }

    // With rows and columns exchanged.
    fn turned(&self) -> Square<'a>
        ensures { (result.values.now ≡ self.now.values.now)
            × (result.at ≡ self.now.at)
            × (result.down ≡ self.now.right)
            × (result.right ≡ self.now.down) }
    {
        Square {
            values: self.values,
            at: self.at,
            down: self.right,
            right: self.down,
        }
    }

    // The larger of `best` and the slopes downwards and to the right.
    pub(crate) fn steeper(&self, best: f32) -> f32
        requires { to_bits binary32 best ≤ 0x7F800000 }
        ensures is { result ≡ Spec.steeper (square self.now.values.now self.now.at self.now.down self.now.right) 0 0 best }
        ensures plain { to_bits binary32 result ≤ 0x7F800000 }
    {
        binary32::larger_plain(
            binary32::larger_plain(best, self.slope()),
            self.turned().slope(),
        )
    }
}
