// A range of bits, which is cut until one is left.
ghost use Rattle.std.specs.Prelude.{◌≡◌, ◌+◌, ◌≤◌, ◌<◌};

// The bits of 0.01 and of 1.0, the limits of the threshold.
const LEAST_BITS: u32 = 0x3C23D70A;

const MOST_BITS: u32 = 0x3F800000;

#[derive(Clone, Copy)]
pub(crate) struct Range {
    pub(crate) lo: u32,
    pub(crate) hi: u32,
    ghost in_order: { lo ≤ hi },
}

impl Range {
    // All bits that a threshold may have.
    pub(crate) fn limits() -> Self
        ensures { (result.lo ≡ 0x3C23D70A) × (result.hi ≡ 0x3F800000) }
    {
        Range {
            lo: LEAST_BITS,
            hi: MOST_BITS,
        }
    }

    pub(crate) fn halfway(self) -> u32
        requires { self.lo < self.hi }
        ensures { (self.lo ≤ result) × (result < self.hi) }
    {
        self.lo + (self.hi - self.lo) / 2
    }

    // The side of the range, up to mid or above it, that holds the bits of entry `rank`, where `count` values are at most mid.
    pub(crate) fn cut(self, mid: u32, rank: u64, count: u32) -> Self
        requires { (self.lo ≤ mid) × (mid < self.hi) }
        ensures lower { rank < count → (result.lo ≡ self.lo) × (result.hi ≡ mid) }
        ensures upper { count ≤ rank → (result.lo ≡ mid + 1) × (result.hi ≡ self.hi) }
    {
        if rank < u64::from(count) {
            Range {
                lo: self.lo,
                hi: mid,
            }
        } else {
            Range {
                lo: mid + 1,
                hi: self.hi,
            }
        }
    }

    // `reach` from an end; in the middle once that is nearer.
    pub(crate) fn near_end(self, reach: u32, from_lo: bool) -> u32
        requires { self.lo < self.hi }
        ensures { (self.lo ≤ result) × (result < self.hi) }
    {
        if (self.hi - self.lo) / 2 <= reach {
            self.halfway()
        } else if from_lo {
            self.lo + reach
        } else {
            self.hi - 1 - reach
        }
    }
}
