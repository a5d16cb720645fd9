// Replays screens that the Rust was run on: standard input holds them, one after another: height and width, two bytes each, low byte
// first, then the pixels. A line for each factor has the answer, the record and values of the planes that are left; what is printed
// is held to the file stdout, which has the Rust's, changed as 02 says (scripts/answers locate), and 01's number where it does not read.
// The screens are too small to be read after a narrowing by 4 or 5: with these what is narrowed answers 5.
#![tactic(auto)]

use board::Board;
use locate::Located;
use std::io::{self, Read};

// The longest side of a stored screen.
const MOST: usize = 210;

// The bits of a value; the largest u32 is no number.
fn bits(x: f32) -> u32 {
    binary32::bits(x).unwrap_or(u32::MAX)
}

// The bits of a plane value, after a blank. The planes are never so short that 0 is printed for it.
fn value(rt: &impl Print, planes: &[f32], at: usize) -> io::Result<()> {
    if planes.len() <= at {
        return print!(rt; " 0");
    }
    print!(rt; " {}", bits(planes[at]))
}

// The record, each number after a blank.
fn record(rt: &impl Print, b: Board) -> io::Result<()> {
    print!(rt;
        " {} {} {} {} {} {}",
        b.height, b.width, b.r_1, b.c_1, b.r_2, b.c_2
    )?;
    print!(rt;
        " {} {} {} {} {} {}",
        b.r0,
        b.c0,
        b.r,
        b.c,
        bits(b.pixelr),
        bits(b.pixelc)
    )
}

// The answer, the record and four plane values in a line. The smallest screen has more, so that none is of the screen before.
fn show(rt: &impl Print, l: Located, planes: &[f32]) -> io::Result<()> {
    print!(rt; "{}", l.answer)?;
    record(rt, l.board)?;
    value(rt, planes, 7)?;
    value(rt, planes, 777)?;
    value(rt, planes, 1777)?;
    value(rt, planes, 2777)?;
    println!(rt; "")
}

// The largest screen, its planes, and what locating takes beside them.
#[derive(Clone, Copy)]
struct Buffers {
    pixels: [u8; 4 * MOST * MOST],
    planes: [f32; 3 * MOST * MOST],
    edges: [u8; MOST * MOST],
    scores: [u32; 2 * MOST],
    scratch_f32: [f32; MOST * MOST],
    scratch_u8: [u8; MOST * MOST],
    scratch_u32: [u32; 8 * MOST],
}

impl Buffers {
    // Loads a screen, locates its board by the factor and prints the line. The record of a screen that does not load is zeros, which
    // locating refuses.
    fn replay(
        &mut self,
        rt: &impl Print,
        factor: usize,
        height: usize,
        width: usize,
    ) -> io::Result<()> {
        let board = load::new(height, width, &self.pixels, &mut self.planes).unwrap_or_default();
        let l = locate::get_pos_pixel(
            board,
            factor,
            &mut self.planes,
            &mut self.edges,
            &mut self.scores,
            &mut self.scratch_f32,
            &mut self.scratch_u8,
            &mut self.scratch_u32,
        );
        show(rt, l, &self.planes)
    }

    // Replays the next screen by each factor; false where no whole screen is left.
    fn replay_next<R: Read>(&mut self, rt: &impl Print, from: &mut R) -> io::Result<bool> {
        let mut sides = [0u8; 4];
        if stream::read_full(from, &mut sides) != Ok(4) {
            return Ok(false);
        }
        let height = usize::from(u16::from_le_bytes([sides[0], sides[1]]));
        let width = usize::from(u16::from_le_bytes([sides[2], sides[3]]));
        if MOST < height || MOST < width {
            return Ok(false);
        }
        let n = 4 * (height * width);
        if stream::read_full(from, &mut self.pixels[..n]) != Ok(n) {
            return Ok(false);
        }
        for factor in Board::LEAST_FACTOR..=Board::MOST_FACTOR {
            self.replay(rt, factor, height, width)?;
        }
        Ok(true)
    }
}

// All screens, at most a hundred.
fn main(rt: HostRuntime) -> io::Result<()> {
    let mut input = rt.reader();
    let mut buffers = Buffers {
        pixels: [0; 4 * MOST * MOST],
        planes: [0.0; 3 * MOST * MOST],
        edges: [0; MOST * MOST],
        scores: [0; 2 * MOST],
        scratch_f32: [0.0; MOST * MOST],
        scratch_u8: [0; MOST * MOST],
        scratch_u32: [0; 8 * MOST],
    };
    for _ in 0..100 {
        if !buffers.replay_next(&rt, &mut input)? {
            break;
        }
    }
    Ok(())
}
