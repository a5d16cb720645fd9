// A factor of a narrowing (02, R-1).
ghost use Rattle.std.specs.Prelude.{◌≡◌, ◌↔◌, true, IsNone, IfSome};
ghost use Rattle.board.specs.Inner.{FactorIn};

use crate::Board;

// 2 to 5.
#[derive(Clone, Copy)]
pub struct Factor {
    pub value: usize,
    pub ghost in_range: { FactorIn value },
}

impl Factor {
    ghost use Rattle.board.specs.Board as Spec;

    // The factor of this number; none if no narrowing has it.
    #[tactic(auto, using(crate::proofs::Sides::factor_in))]
    pub fn new(value: usize) -> Option<Factor>
        ensures none { IsNone result ↔ (Spec.factor_outside value ≡ true) }
        ensures some { IfSome result (λ f. f.value ≡ value) }
    {
        if crate::outside(Board::LEAST_FACTOR, Board::MOST_FACTOR, value) {
            None
        } else {
            Some(Factor { value })
        }
    }

    // The least side that is located with this factor.
    pub fn least_located(self) -> usize
        ensures { result ≡ Spec.least_located self.value }
    {
        Board::LEAST_SIDE.max(4 * self.value)
    }
}
