// Single binary32 values: the leaves that the later steps share (01, first paragraph and "How each operation declines").
// Definitions: specs/Binary32. Laws for callers:
// proofs/Values: what is no number is no unit, whole numbers that are exact, the magnitude by its bits.
// proofs/Numbers: sums and magnitudes of numbers are numbers.
// proofs/Order: values that are not negative, what is rounded without a sign among them, are ordered as their bits are.
// proofs/Plain: the same for a comparison with a value given by its bits.
// proofs/Share: a share of m, cut to a whole number, is below m.
#![tactic(auto)]

ghost use Rattle.std.specs.Prelude.{◌≡◌, ◌≤◌, not, T, is_nan, Some, None};
ghost use Rattle.std.specs.Float.{binary32};
ghost use Rattle.std.specs.Float.Ieee.{to_bits};
ghost use Rattle.binary32.specs.Binary32 as Spec;

// Whether the bits are at most 3F800000 hexadecimal. The bits of what is no number may not be read, so it is tested first.
#[tactic(auto, using(crate::proofs::Values::nan_no_unit), unfolding(crate::specs::Binary32::unit))]
pub fn unit(x: f32) -> bool
    ensures { result ≡ Spec.unit x }
{
    !x.is_nan() && x.to_bits() <= 0x3F800000
}

// The sign bit is the highest of 32: the remainder clears it.
pub fn magnitude(x: f32) -> f32
    requires { T (not (is_nan x)) }
    ensures is { result ≡ Spec.magnitude x }
    ensures plain { to_bits binary32 result ≤ 0x7F800000 }
{
    f32::from_bits(x.to_bits() % 0x80000000)
}

pub fn larger(a: f32, b: f32) -> f32
    ensures { result ≡ Spec.larger a b }
{
    if a > b { a } else { b }
}

// The same of two numbers with the sign bit clear, by their bits: the compiler packs these, and no comparison of values.
pub fn larger_plain(a: f32, b: f32) -> f32
    requires { (to_bits binary32 a ≤ 0x7F800000) × (to_bits binary32 b ≤ 0x7F800000) }
    ensures is { result ≡ Spec.larger a b }
    ensures plain { to_bits binary32 result ≤ 0x7F800000 }
{
    f32::from_bits(a.to_bits().max(b.to_bits()))
}

// As Rust's `as u64`: total, 0 for what is negative or no number, the largest u64 for what lies above.
pub fn trunc(x: f32) -> u64
    ensures { result ≡ Spec.trunc x }
{
    std::num::saturating_f32_to_u64(x)
}

// The bits, if it is a number.
pub fn bits(x: f32) -> Option<u32>
    ensures number { T (not (is_nan x)) → result ≡ Some (to_bits binary32 x) }
    ensures none { T (is_nan x) → result ≡ None }
{
    if x.is_nan() { None } else { Some(x.to_bits()) }
}
