// Planes that are fit, and the squares of their points.
ghost use Rattle.std.specs.Prelude.{◌≡◌, ◌+◌, ◌-◌, ◌*◌, ◌<◌};
ghost use Rattle.board.specs.Board.{least_plane_side};
ghost use Rattle.board.specs.Inner.{FitPlanes};
ghost use Rattle.board.specs.Screen.{view};
ghost use Rattle.gradient.specs.Gradient.{gradient_at};

use crate::square::Square;

// Three planes of `height` rows of `width` values each, one after another.
#[derive(Clone, Copy)]
pub(crate) struct Planes<'a> {
    pub(crate) height: usize,
    pub(crate) width: usize,
    pub(crate) values: &'a [f32],
    ghost fit: { FitPlanes least_plane_side height width values.now },
}

impl<'a> Planes<'a> {
    // The square of a point in a plane.
    fn square(&self, plane: usize, i: usize, j: usize) -> Square<'a>
        requires { (plane < 3) × (i < self.now.height - 2) × (j < self.now.width - 2) }
        ensures at { result.at ≡ plane * (self.now.height * self.now.width) + (i * self.now.width + j) }
        ensures steps { (result.down ≡ self.now.width) × (result.right ≡ 1) }
        ensures values { result.values.now ≡ self.now.values.now }
    {
        Square {
            values: self.values,
            at: plane * (self.height * self.width) + (i * self.width + j),
            down: self.width,
            right: 1,
        }
    }

    // The largest of the six magnitudes at a point.
    pub(crate) fn steepest(&self, i: usize, j: usize) -> f32
        requires { (i < self.now.height - 2) × (j < self.now.width - 2) }
        ensures { result ≡ gradient_at (view self.now.height self.now.width self.now.values.now).px i j }
    {
        let first = self.square(0, i, j).steeper(0.0);
        let second = self.square(1, i, j).steeper(first);
        self.square(2, i, j).steeper(second)
    }
}
