// Why a call declines (01, "How each operation declines"; 02), and the numbers that stand for it in C. Definitions: specs/Refusal.
#![tactic(auto)]

ghost use Rattle.std.specs.Prelude.{◌≡◌};
ghost use Rattle.refusal.specs.Refusal as Spec;

// Each reason has 01's number.
#[derive(Clone, Copy, Debug, PartialEq, Eq)]
pub enum Refusal {
    BadSide = 1,
    ShortPixels = 2,
    ShortSlice = 3,
    BadValue = 4,
    TooSmall = 5,
    ColumnsNoGap = 6,
    ColumnsTooFar = 7,
    RowsNoGap = 8,
    RowsTooFar = 9,
    BadPitch = 10,
    BadNumber = 11,
    Outside = 12,
    BadFactor = 13,
    NotOnBoard = 14,
    TooWide = 15,
}

impl From<Refusal> for u32 {
    ghost from_gives = { λ r n. n ≡ Spec.number r };

    fn from(refusal: Refusal) -> u32 {
        refusal as u32
    }
}

// What a call answers in C: 0 where the work was done.
pub fn answer_of(outcome: Result<(), Refusal>) -> u32
    ensures { result ≡ Spec.answer_of outcome }
{
    match outcome {
        Ok(()) => 0,
        Err(refusal) => u32::from(refusal),
    }
}
