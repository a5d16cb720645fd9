// What the screen program prints for the bytes that it read (01, "Screen program"): the screen is loaded and located, and its values are
// written in two lines. It answers 11, 1, 2 and locating's. Definitions: specs/Values (the values and the two lines), specs/Answer (which
// values for which bytes).
#![tactic(auto)]

ghost use Rattle.std.specs.Prelude.{◌≡◌, List, ℕ, ◌≤◌, length, take};
ghost use Rattle.lists.specs.Front.{AtFront};
ghost use Rattle.board.specs.Board.{least_side};
ghost use Rattle.board.specs.Inner.{FitPlanes};
ghost use Rattle.locate.specs.Locate.{found_in};
ghost use Rattle.header.specs.Header.{most_shown};
ghost use Rattle.reply.specs.Values as Spec;
ghost use Rattle.reply.specs.Values.{text_of, text_room};
ghost use Rattle.reply.specs.Answer.{factor, values_of, answer_to, room};

use board::Board;
use header::{FIRST_LINE, MOST_SHOWN, SECOND_LINE};
use locate::Located;

// Entries for the largest screen: its pixels, its planes, its two sides together.
const AREA: usize = MOST_SHOWN * MOST_SHOWN;

const PLANES: usize = 3 * AREA;

const SIDES: usize = 2 * MOST_SHOWN;

// So many bytes of the input are enough: the longest first two lines, and four bytes a pixel. The definition is `room`.
pub const ROOM: usize = FIRST_LINE + SECOND_LINE + 4 * AREA;

// The bytes of the line of names, and the values of the other line.
const NAMES: usize = 86;

const VALUES: usize = 14;

// So many bytes hold the two lines: a value has at most 20 digits, and a byte behind it. The definition is `text_room`.
pub const TEXT_ROOM: usize = NAMES + 21 * VALUES;

// What is printed of a located screen.
fn located(l: Located) -> [u64; VALUES]
    ensures { result ≡ Spec.located l }
{
    let b = l.board;
    [
        l.answer as u64,
        b.r as u64,
        b.c as u64,
        b.r_1 as u64,
        b.c_1 as u64,
        b.r0 as u64,
        b.c0 as u64,
        l.quarterr as u64,
        l.quarterc as u64,
        l.votesr as u64,
        l.votesc as u64,
        l.narrowed as u64,
        b.height as u64,
        b.width as u64,
    ]
}

// What is printed where loading refused or the first two lines are bad.
fn alone(answer: u32) -> [u64; VALUES]
    ensures { result ≡ Spec.alone answer }
{
    [answer as u64, 0, 0, 0, 0, 0, 0, 0, 0, 0, 0, 0, 0, 0]
}

// What the program narrows by.
const FACTOR: usize = 3;

// Locates a screen of at most 64 by 64 whose planes are fit.
fn locate_shown(b: Board, planes: &mut [f32]) -> Located
    requires { FitPlanes least_side b.height b.width planes.old × (b.height ≤ most_shown) × (b.width ≤ most_shown) }
    ensures { result ≡ found_in b factor planes.old }
{
    let mut edges: [u8; AREA] = [0; AREA];
    let mut scores: [u32; SIDES] = [0; SIDES];
    let mut scratch_f32: [f32; AREA] = [0.0; AREA];
    let mut scratch_u8: [u8; AREA] = [0; AREA];
    let mut scratch_u32: [u32; 4 * SIDES] = [0; 4 * SIDES];
    locate::get_pos_pixel(
        b,
        FACTOR,
        planes,
        &mut edges,
        &mut scores,
        &mut scratch_f32,
        &mut scratch_u8,
        &mut scratch_u32,
    )
}

// Loads and locates a screen of at most 64 by 64. The planes lent are the screen's and no longer, so that the definition names no buffer.
fn values_of(height: usize, width: usize, pixels: &[u8]) -> [u64; VALUES]
    requires { (height ≤ most_shown) × (width ≤ most_shown) }
    ensures { result ≡ values_of height width pixels.now }
{
    let mut planes: [f32; PLANES] = [0.0; PLANES];
    let n = 3 * (height * width);
    match load::new(height, width, pixels, &mut planes[..n]) {
        Ok(board) => located(locate_shown(board, &mut planes[..n])),
        Err(refusal) => alone(u32::from(refusal)),
    }
}

// What is printed for the bytes of the input.
#[tactic(auto, unfolding(crate::specs::Answer::answer_to, crate::specs::Answer::values_for), using(header::proofs::Shown::header_shown))]
fn answer_to(bytes: &[u8]) -> [u64; VALUES]
    ensures { result ≡ answer_to bytes.now }
{
    match header::header(bytes) {
        Ok(sides) => values_of(sides.height, sides.width, header::pixels(bytes, sides.at)),
        Err(refusal) => alone(u32::from(refusal)),
    }
}

// Writes the two lines to the front of `out`, and answers how many bytes they are.
fn write_lines(values: &[u64], out: &mut [u8]) -> usize
    requires { length (text_of values.now) ≤ length out.old }
    ensures length_is { result ≡ length (text_of values.now) }
    ensures front { AtFront (text_of values.now) out.old out.new }
{
    let names =
        b"answer rows columns r1 c1 r0 c0 quarterr quarterc votesr votesc narrowed height width\n";
    let next = text::put_bytes(out, 0, names);
    text::put_numbers(out, next, values)
}

// Everything but the input and the output: writes the two lines to the front of `out`, and answers how many bytes they are. They are those
// of any input whose first `room` bytes, or all where it has fewer, are the n that were read.
pub fn reply(bytes: &[u8], n: usize, out: &mut [u8]) -> usize
    requires { (length bytes.now ≡ room) × (n ≤ room) × (text_room ≤ length out.old) }
    ensures lines { (input : List ℕ) → take room input ≡ take n bytes.now →
        (result ≡ length (text_of (answer_to input))) × AtFront (text_of (answer_to input)) out.old out.new }
    ensures within { result ≤ length out.new }
{
    let values = answer_to(&bytes[..n]);
    write_lines(&values, out)
}
