// The points of a cell along one axis (01, "Cell sampling").
ghost use Rattle.std.specs.Prelude.{◌≡◌, ℕ, ◌<◌, get_or};
ghost use Rattle.sample.specs.Inner.{AxisIn};

use board::Board;

// The rows of a cell, or its columns: the corner of the grid and the offset from it, the pitch, the cell's number in the grid, and how
// many points are taken.
#[derive(Clone, Copy)]
pub struct Axis {
    pub corner: usize,
    pub offset: usize,
    pub pitch: f32,
    pub number: usize,
    pub size: usize,
    pub ghost axis_in: { AxisIn corner offset number size },
}

impl Axis {
    ghost use Rattle.sample.specs.Sample.{sampled_at, all_below};

    pub fn rows(b: Board, x: usize, size: usize) -> Axis
        requires { AxisIn b.r_1 b.r0 x size }
        ensures { (result.corner ≡ b.r_1) × (result.offset ≡ b.r0) × (result.pitch ≡ b.pixelr) × (result.number ≡ x)
            × (result.size ≡ size) }
    {
        Axis {
            corner: b.r_1,
            offset: b.r0,
            pitch: b.pixelr,
            number: x,
            size,
        }
    }

    pub fn columns(b: Board, y: usize, size: usize) -> Axis
        requires { AxisIn b.c_1 b.c0 y size }
        ensures { (result.corner ≡ b.c_1) × (result.offset ≡ b.c0) × (result.pitch ≡ b.pixelc) × (result.number ≡ y)
            × (result.size ≡ size) }
    {
        Axis {
            corner: b.c_1,
            offset: b.c0,
            pitch: b.pixelc,
            number: y,
            size,
        }
    }

    // The row, or the column, of point i.
    #[tactic(auto, unfolding(crate::specs::Sample::sampled_at))]
    pub fn sampled_at(self, i: usize) -> usize
        requires { i < self.size }
        ensures { result ≡ sampled_at self.corner self.offset self.pitch self.number self.size i }
    {
        binary32::trunc(
            self.corner as f32
                + self.offset as f32
                + self.pitch * self.number as f32
                + self.pitch / 2.0 / self.size as f32 * (i as f32 * 2.0 + 1.0),
        ) as usize
    }

    // Those of all points.
    pub fn places(self) -> [usize; Board::MOST_SIZE]
        ensures { (i : ℕ) → i < self.size →
            get_or result i 0 ≡ sampled_at self.corner self.offset self.pitch self.number self.size i }
    {
        let mut at = [0; Board::MOST_SIZE];
        for i in 0..self.size {
            at[i] = self.sampled_at(i);
        }
        at
    }

    // Whether all are below the picture's side.
    pub fn inside(self, side: usize) -> bool
        ensures { result ≡ all_below (sampled_at self.corner self.offset self.pitch self.number self.size) side self.size }
    {
        (0..self.size).all(|i| self.sampled_at(i) < side)
    }
}
