// Which plane values are units (01, "How each operation declines"), by no comparison of binary32 values: the compiler keeps one of those
// to a register, and four sums or four bits. Where the sums in lanes are numbers all values are, and then their bits may be read.
ghost use Rattle.std.specs.Prelude.{◌≡◌, ℕ, ◌+◌, ◌*◌, ◌/◌, ◌%◌, ◌≤◌, ◌<◌, ◌^◌, true, not, T, is_nan, length, get_or, take};
ghost use Rattle.std.specs.Float.{nan, binary32};
ghost use Rattle.std.specs.Float.Ieee.{add};
ghost use Rattle.lists.specs.Count.{count};
ghost use Rattle.binary32.specs.Binary32.{unit};
ghost use Rattle.board.specs.Planes as Spec;
ghost use Rattle.board.specs.Inner.{lanes, lane, lane_sum, AllNumbers};

use lists::Test;

// Four registers of sums: each waits for the sum before it.
const LANES: usize = 16;

// So many values are gone through twice while the nearest cache has them.
const BLOCK: usize = 4096;

// The test for a value that is no unit.
#[derive(Clone, Copy)]
struct NoUnit;

impl Test<f32> for NoUnit {
    ghost passed = { λ _ x. not (unit x) };

    fn passes(&self, x: f32) -> bool {
        !binary32::unit(x)
    }
}

// Adds a row to the sums of its lanes.
fn add_row(sums: &mut [f32; LANES], row: &[f32])
    requires { length row.now ≡ lanes }
    ensures { (l : ℕ) → l < lanes → get_or sums.new l nan ≡ add binary32 (get_or sums.old l nan) (get_or row.now l nan) }
{
    for l in 0..LANES {
        sums[l] = sums[l] + row[l];
    }
}

// The sums of all lanes.
fn lane_sums(values: &[f32]) -> [f32; LANES]
    ensures { (l : ℕ) → l < lanes → get_or result l nan ≡ lane_sum (lane values.now l) (length values.now / lanes) }
{
    let mut sums: [f32; LANES] = [0.0; LANES];
    for k in 0..values.len() / LANES {
        let from = k * LANES;
        add_row(&mut sums, &values[from..from + LANES]);
    }
    sums
}

// Whether all values of whole rows are numbers: surely where they are units, and surely not where one is none.
fn are_numbers(values: &[f32]) -> bool
    requires { length values.now % lanes ≡ 0 }
    ensures { (result ≡ true → AllNumbers values.now) × (Spec.all_units values.now ≡ true → result ≡ true) }
{
    lane_sums(values).iter().all(|sum| !sum.is_nan())
}

// How many numbers are no units. A counter of 32 bits keeps four lanes to a register.
fn count_above(values: &[f32]) -> u32
    requires long { length values.now ≤ 2 ^ 26 }
    requires numbers { AllNumbers values.now }
    ensures { result ≡ count (λ x. not (unit x)) values.now }
{
    let mut n: u32 = 0;
    for x in values {
        n += (x.to_bits() > 0x3F800000) as u32;
    }
    n
}

// Whether all values of whole rows are units.
fn are_whole_units(values: &[f32]) -> bool
    requires { (length values.now % lanes ≡ 0) × (length values.now ≤ 2 ^ 26) }
    ensures { result ≡ Spec.all_units values.now }
{
    are_numbers(values) && count_above(values) == 0
}

// Whether all values are units.
fn are_units(values: &[f32]) -> bool
    requires { length values.now ≤ 2 ^ 26 }
    ensures { result ≡ Spec.all_units values.now }
{
    let (rows, rest) = values.split_at(values.len() / LANES * LANES);
    are_whole_units(rows) && lists::count_passing(rest, &NoUnit) == 0
}

// Whether the first n values are units.
pub fn all_units(planes: &[f32], n: usize) -> bool
    requires { (n ≤ length planes.now) × (n ≤ 2 ^ 26) }
    ensures { result ≡ Spec.all_units (take n planes.now) }
{
    for from in (0..n).step_by(BLOCK) {
        if !are_units(&planes[from..n.min(from + BLOCK)]) {
            return false;
        }
    }
    true
}
