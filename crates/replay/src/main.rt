// Replays a fixed list of the Rust's answers: what it prints is held to the file stdout, which the Rust made (scripts/answers load).
// The planes are handed out channel by channel.
#![tactic(auto)]

use std::io;

// The pixel n of the screen has the bytes n, 255 - n, 7 n and 13 n, the last two without what is above a byte.
fn drawn() -> [u8; 1024] {
    let mut pixels: [u8; 1024] = [0; 1024];
    for n in 0..256 {
        pixels[4 * n] = n as u8;
        pixels[4 * n + 1] = (255 - n) as u8;
        pixels[4 * n + 2] = (n * 7 % 256) as u8;
        pixels[4 * n + 3] = (n * 13 % 256) as u8;
    }
    pixels
}

// The bits of the values of one plane, or of none, each in a line of its own; the largest u32 is no number.
fn show(rt: &impl Print, plane: &[f32]) -> io::Result<()> {
    for x in plane {
        println!(rt; "{}", binary32::bits(*x).unwrap_or(u32::MAX))?;
    }
    Ok(())
}

fn main(rt: HostRuntime) -> io::Result<()> {
    let pixels = drawn();
    let mut planes: [f32; 768] = [0.0; 768];
    println!(rt; "load 16 16")?;
    if let Err(refusal) = load::new(16, 16, &pixels, &mut planes) {
        return println!(rt; "{}", u32::from(refusal));
    }
    // There is no plane 3: an empty part, which adds no line.
    for k in 0..4 {
        show(&rt, board::channel(16, 16, &planes, k))?;
    }
    Ok(())
}
