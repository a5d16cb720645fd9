// The first two lines of the screen program's input (01, "Screen program"): the sides, and where the pixels begin. It refuses with
// 11 and 1. Definitions: specs/Header; specs/Inner is for the inner functions. Laws for callers:
// proofs/Shown: what sides and places the two lines give.
// proofs/Cut: the two lines are found in the front of the input.
#![tactic(auto)]

ghost use Rattle.std.specs.Prelude.{◌≡◌, ◌+◌, ◌-◌, ◌≤◌, ◌<◌, length, drop, IfOk};
ghost use Rattle.header.specs.Header.{digit_count, digits_end, four_at_most, value_at};
ghost use Rattle.header.specs.Header.{shown_side, sized, numbers_at, header_of};
ghost use Rattle.header.specs.Inner.{number_at};

use board::Board;
use refusal::Refusal;

// The largest side of a screen that the program takes.
pub const MOST_SHOWN: usize = 64;

// The bytes of the first line, and at most of the second, each with its line feed.
pub const FIRST_LINE: usize = 13;

pub const SECOND_LINE: usize = 10;

// The sides, and where the pixels begin.
#[derive(Clone, Copy)]
pub struct Sides {
    pub height: usize,
    pub width: usize,
    pub at: usize,
}

// A number, and the place behind its mark.
#[derive(Clone, Copy)]
struct Numeral {
    value: usize,
    next: usize,
}

// How many digits the bytes begin with.
fn digit_count(bytes: &[u8]) -> usize
    ensures { result ≡ digit_count bytes.now }
{
    bytes.iter().take_while(|b| b.is_ascii_digit()).count()
}

// The first place from `from` on that has no digit.
#[tactic(auto, unfolding(crate::specs::Header::digits_end), using(crate::proofs::Numbers::count_in))]
fn digits_end(bytes: &[u8], from: usize) -> usize
    requires { from ≤ length bytes.now }
    ensures value { result ≡ digits_end bytes.now from }
    ensures within { result ≤ length bytes.now }
{
    from + digit_count(&bytes[from..])
}

// Whether the places from `from` to `end` are one to four, and the byte behind them is the mark.
#[tactic(auto, unfolding(crate::specs::Header::four_at_most))]
fn four_at_most(bytes: &[u8], from: usize, end: usize, mark: u8) -> bool
    requires { (from ≤ 65536) × (0 < mark) }
    ensures { result ≡ four_at_most bytes.now from end mark }
{
    from < end && end <= from + 4 && bytes.get(end) == Some(&mark)
}

// The number written from `from` to `end`.
fn number(bytes: &[u8], from: usize, end: usize) -> usize
    requires order { (from ≤ end) × (end ≤ from + 4) }
    requires inside { end ≤ length bytes.now }
    ensures { result ≡ value_at bytes.now from (end - from) 0 }
{
    let mut value = 0;
    for b in &bytes[from..end] {
        value = 10 * value + usize::from(b.saturating_sub(b'0'));
    }
    value
}

fn shown_side(side: usize) -> bool
    ensures { result ≡ shown_side side }
{
    (Board::LEAST_SIDE..=MOST_SHOWN).contains(&side)
}

#[tactic(auto, unfolding(crate::specs::Header::sized))]
fn sized_of(height: usize, width: usize, at: usize) -> Result<Sides, Refusal>
    ensures { result ≡ sized height width at }
{
    if !(shown_side(height) && shown_side(width)) {
        return Err(Refusal::BadSide);
    }
    Ok(Sides { height, width, at })
}

// The number from `from` on: one to four digits, and the mark behind them.
#[tactic(auto, unfolding(crate::specs::Inner::number_at))]
fn number_at(bytes: &[u8], from: usize, mark: u8) -> Result<Numeral, Refusal>
    requires { (from ≤ length bytes.now) × (from ≤ 65000) × (0 < mark) }
    ensures value { result ≡ number_at bytes.now from mark }
    ensures next_in { IfOk result (λ n. (n.next ≤ length bytes.now) × (n.next ≤ from + 5)) }
{
    let end = digits_end(bytes, from);
    if !four_at_most(bytes, from, end, mark) {
        return Err(Refusal::BadNumber);
    }
    Ok(Numeral {
        value: number(bytes, from, end),
        next: end + 1,
    })
}

#[tactic(auto, using(crate::proofs::Numbers::numbers_read))]
fn numbers_at(bytes: &[u8], from: usize) -> Result<Sides, Refusal>
    requires { (from ≤ length bytes.now) × (from ≤ 60000) }
    ensures { result ≡ numbers_at bytes.now from }
{
    let height = number_at(bytes, from, b' ')?;
    let width = number_at(bytes, height.next, b'\n')?;
    sized_of(height.value, width.value, width.next)
}

// The sides and the place of the pixels from the first two lines. It refuses with 11 and 1.
#[tactic(auto, unfolding(crate::specs::Header::header_of), using(crate::proofs::Prefix::begins_is))]
pub fn header(bytes: &[u8]) -> Result<Sides, Refusal>
    ensures { result ≡ header_of bytes.now }
{
    if !bytes.starts_with(b"height width\n") {
        return Err(Refusal::BadNumber);
    }
    numbers_at(bytes, FIRST_LINE)
}

// What stands behind the first two lines.
pub fn pixels(bytes: &[u8], at: usize) -> &[u8]
    ensures { result.now ≡ drop at bytes.now }
{
    &bytes[at.min(bytes.len())..]
}
