// Loading: pixels of four bytes become three planes (01, "Load"). It refuses with 1, 2 and 3. Definitions: specs/Load.
// Laws for callers: proofs/Laws (what is loaded is fit).
#![tactic(auto)]

ghost use Rattle.std.specs.Prelude.{◌≡◌, ◌+◌, ◌*◌, ◌≤◌, ◌<◌, length};
ghost use Rattle.lists.specs.Front.{AtFront};
ghost use Rattle.board.specs.Screen.{packed};
ghost use Rattle.load.specs.Load as Spec;
ghost use Rattle.refusal.specs.Refusal.{answer_of};
ghost use Rattle.load.specs.Load.{most_byte, shown, load_answer, loaded_of, LoadGives};

use board::Board;
use refusal::Refusal;

// What a load hands back as C has it: a record and the answer, 0 or the number of the refusal.
#[repr(C)]
#[derive(Clone, Copy)]
pub struct Loaded {
    pub board: Board,
    pub answer: u32,
}

// A refusal hands back a record of zeros.
impl From<Result<Board, Refusal>> for Loaded {
    ghost from_gives = { λ outcome loaded. loaded ≡ loaded_of outcome };

    fn from(outcome: Result<Board, Refusal>) -> Loaded {
        match outcome {
            Ok(board) => Loaded { board, answer: 0 },
            Err(refusal) => Loaded {
                board: Board::fresh(0, 0),
                answer: u32::from(refusal),
            },
        }
    }
}

#[tactic(auto, unfolding(crate::specs::Load::level), using(crate::proofs::Units::byte_top))]
fn level(b: u8) -> f32
    ensures { result ≡ Spec.level most_byte b }
{
    b as f32 / 255.0
}

// The three planes in one loop.
fn load_planes(height: usize, width: usize, pixels: &[u8], planes: &mut [f32])
    requires sides { (0 < height) × (0 < width) }
    requires room { (4 * (height * width) ≤ length pixels.now) × (3 * (height * width) ≤ length planes.old) }
    ensures { AtFront (packed (shown most_byte height width pixels.now)) planes.old planes.new }
{
    let n = height * width;
    let (pixels, _) = pixels.as_chunks::<4>();
    for (i, &[blue, green, red, _]) in pixels[..n].iter().enumerate() {
        planes[i] = level(red);
        planes[n + i] = level(green);
        planes[2 * n + i] = level(blue);
    }
}

// The refusals, for so many bytes of pixels and values of planes.
#[tactic(auto, unfolding(crate::specs::Load::load_answer), using(board::proofs::Sides::sides_in))]
fn check(height: usize, width: usize, pixels: usize, planes: usize) -> Result<(), Refusal>
    ensures { answer_of result ≡ load_answer height width pixels planes }
{
    if board::sides_outside(Board::LEAST_SIDE, height, width) {
        return Err(Refusal::BadSide);
    }
    let n = height * width;
    if pixels < 4 * n {
        return Err(Refusal::ShortPixels);
    }
    if planes < 3 * n {
        return Err(Refusal::ShortSlice);
    }
    Ok(())
}

// Loads a screen into the lent planes and hands back its fresh record. A refusal writes nothing.
#[tactic(auto, using(crate::proofs::Answers::loadable))]
pub fn new(height: usize, width: usize, pixels: &[u8], planes: &mut [f32]) -> Result<Board, Refusal>
    ensures { LoadGives most_byte height width pixels.now planes.old (loaded_of result) planes.new }
{
    check(height, width, pixels.len(), planes.len())?;
    load_planes(height, width, pixels, planes);
    Ok(Board::fresh(height, width))
}
