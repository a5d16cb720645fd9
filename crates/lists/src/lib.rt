// Lists given by a rule for each place (specs/Tab), pictures as functions of row and column (specs/Picture), counts by
// a test (specs/Count), what a call writes into a lent slice (specs/Front), and the loops over a slice that several
// steps share. Laws for callers:
// proofs/Tab: a list by its rule.
// proofs/Front: a list at the front of a slice, or from a place on, entry by entry, row by row or part by part.
// proofs/Count: a loop that counts.
// proofs/Part: a part of a list, and a part that is lent.
// proofs/Grid: a grid row by row, and the row and the column of a place.
// proofs/Picture: a point as a number, and the flipped picture.
#![tactic(auto)]

ghost use Rattle.std.specs.Prelude.{◌≡◌, ◌^◌, ◌≤◌, Bool, leb, eqb, length, take, replicate};
ghost use Rattle.std.specs.Float.{binary32};
ghost use Rattle.std.specs.Float.Ieee.{of_bits};
ghost use Rattle.lists.specs.Count.{count};
ghost use Rattle.lists.specs.Front.{AtFront};

// The first n entries of `from` to the front of `to`.
pub fn copy_front<T: Copy>(from: &[T], n: usize, to: &mut [T])
    requires { (n ≤ length from.now) × (n ≤ length to.old) }
    ensures { AtFront (take n from.now) to.old to.new }
{
    for (k, x) in from[..n].iter().enumerate() {
        to[k] = *x;
    }
}

// What a cleared entry holds.
pub trait Zero {
    ghost zero: { Self };

    fn zero() -> Self
        ensures { result ≡ zero };
}

impl Zero for f32 {
    ghost zero = { of_bits binary32 0 };

    fn zero() -> f32 {
        0.0
    }
}

impl Zero for u32 {
    ghost zero = { 0 };

    fn zero() -> u32 {
        0
    }
}

// Zeros in the first n entries.
pub fn clear_front<T: Zero + Copy>(out: &mut [T], n: usize)
    requires { n ≤ length out.old }
    ensures { AtFront (replicate n T.zero) out.old out.new }
{
    for k in 0..n {
        out[k] = T::zero();
    }
}

// A test of single entries.
pub trait Test<T> {
    ghost passed: { Self → T → Bool };

    fn passes(&self, x: T) -> bool
        ensures { result ≡ passed self.now x };
}

// At most this number.
#[derive(Clone, Copy)]
pub struct AtMost(pub u32);

impl Test<u32> for AtMost {
    ghost passed = { λ test x. leb x test.0 };

    fn passes(&self, x: u32) -> bool {
        x <= self.0
    }
}

// This number.
#[derive(Clone, Copy)]
pub struct EqualTo(pub u32);

impl Test<u32> for EqualTo {
    ghost passed = { λ test x. eqb x test.0 };

    fn passes(&self, x: u32) -> bool {
        x == self.0
    }
}

// How many entries pass a test. A counter of 32 bits keeps four lanes to a register.
pub fn count_passing<T: Copy, P: Test<T>>(s: &[T], test: &P) -> u32
    requires { length s.now ≤ 2 ^ 26 }
    ensures { result ≡ count (P.passed test.now) s.now }
{
    let mut n: u32 = 0;
    for x in s {
        n += test.passes(*x) as u32;
    }
    n
}
