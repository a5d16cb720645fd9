// The medians of several lists of binary32 values side by side, value k of list l by its bits at x[k][l], by comparisons alone: a pass
// drops a smallest and a largest value of a window, which is wide enough that neither can be the median, and takes in one value more.
// No step depends on the values, so that a compiler can work on all lists at once: on bits it does, and on no comparison of binary32
// values. Definitions: specs/Inner. The law: proofs/Passes.
#![tactic(auto)]

ghost use Rattle.std.specs.Prelude.{◌≡◌, ℕ, ◌+◌, ◌<◌, ◌≤◌, length};
ghost use Rattle.std.specs.Float.{binary32};
ghost use Rattle.std.specs.Float.Ieee.{of_bits};
ghost use Rattle.lists.specs.Tab.{tab};
ghost use Rattle.select.specs.Inner.{list_count, list_of, middle_of, chosen, Started, Sifted, DroppedEach, Selected};

// So many lists: 8, 12 and 32 are no faster where 16 registers hold four values each, as on x86-64. The smallest and the largest
// values of 16 take half of them, of 32 all.
pub const LIST_COUNT: usize = 16;

// The smaller and the larger of values s and s + 1.
#[tactic(auto, using(lists::proofs::Front::front_none, lists::proofs::Front::front_here))]
fn start(x: &[[u32; LIST_COUNT]], s: usize, lo: &mut [u32; LIST_COUNT], hi: &mut [u32; LIST_COUNT])
    requires { s + 1 < length x.now }
    ensures { Started s x.now lo.new hi.new }
{
    for l in 0..LIST_COUNT {
        let a = x[s][l];
        let b = x[s + 1][l];
        lo[l] = a.min(b);
        hi[l] = a.max(b);
    }
}

// Value k is compared with the smallest and the largest so far, and the one between them is left in its place.
#[tactic(auto, using(lists::proofs::Front::front_none))]
fn sift(
    x: &mut [[u32; LIST_COUNT]],
    k: usize,
    lo: &mut [u32; LIST_COUNT],
    hi: &mut [u32; LIST_COUNT],
)
    requires { k < length x.old }
    ensures { Sifted k x.old lo.old hi.old x.new lo.new hi.new }
{
    let row = &mut x[k];
    for l in 0..LIST_COUNT {
        let a = lo[l];
        let b = hi[l];
        let y = row[l];
        let t = a.max(y);
        lo[l] = a.min(y);
        hi[l] = b.max(t);
        row[l] = b.min(t);
    }
}

// The window from s up to e loses a smallest and a largest value: the others stand from s + 2 on.
fn pass(x: &mut [[u32; LIST_COUNT]], s: usize, e: usize)
    requires { (s + 2 ≤ e) × (e ≤ length x.old) }
    ensures { DroppedEach s e x.old x.new }
{
    let mut lo: [u32; LIST_COUNT] = [0; LIST_COUNT];
    let mut hi: [u32; LIST_COUNT] = [0; LIST_COUNT];
    start(x, s, &mut lo, &mut hi);
    for k in s + 2..e {
        sift(x, k, &mut lo, &mut hi);
    }
}

// Leaves one value or two at the end of each list; the larger is the middle one of all.
fn select(x: &mut [[u32; LIST_COUNT]])
    requires { 0 < length x.old }
    ensures { Selected (length x.old) x.old x.new }
{
    let n = x.len();
    for t in 0..(n - 1) / 2 {
        pass(x, 2 * t, n / 2 + 2 + t);
    }
}

// What is left in the first lists, one for each entry of `out`: the larger where two are left.
#[tactic(auto, using(lists::proofs::Front::front_all, lists::proofs::Tab::length_tab_from))]
fn put(x: &[[u32; LIST_COUNT]], out: &mut [f32])
    requires room { (0 < length x.now) × (length out.old ≤ list_count) }
    requires plain { (l : ℕ) → l < length out.old → chosen (length x.now) (list_of x.now l) ≤ 0x7F800000 }
    ensures { out.new ≡ tab (length out.old) (λ l. of_bits binary32 (chosen (length x.now) (list_of x.now l))) }
{
    let n = x.len();
    let p = 2 * ((n - 1) / 2);
    for l in 0..out.len() {
        let a = x[p][l];
        let b = x[n - 1][l];
        out[l] = f32::from_bits(a.max(b));
    }
}

// The medians of the first lists, of numbers with the sign bit clear, which are ordered as their bits are: one for each entry of `out`.
// The lists are free afterwards.
#[tactic(auto, using(lists::proofs::Tab::tab_same))]
pub fn medians(x: &mut [[u32; LIST_COUNT]], out: &mut [f32])
    requires room { (0 < length x.old) × (length out.old ≤ list_count) }
    requires plain { (l k : ℕ) → l < length out.old → k < length x.old → list_of x.old l k ≤ 0x7F800000 }
    ensures { out.new ≡ tab (length out.old) (λ l. of_bits binary32 (middle_of (length x.old) (list_of x.old l))) }
{
    select(x);
    put(x, out);
}
