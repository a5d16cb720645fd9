// What the programs read with. Definitions: specs/Inner.
#![tactic(auto)]

ghost use Rattle.std.specs.Prelude.{◌≡◌, ◌⊎◌, length, IfOk, IfErr};
ghost use Rattle.std.specs.Io.KnownBytes.{IsAtEnd};
ghost use Rattle.stream.specs.Inner.{ReadInto};

use std::io::Read;

// Reads until the buffer is full or the input ends, and answers how many bytes were read. If a read fails, so many were read before it.
pub fn read_full<R: Read>(from: &mut R, buf: &mut [u8]) -> Result<usize, usize>
    ensures ok { IfOk result (λ n. ReadInto (R.remaining from.old) (R.remaining from.new) buf.new n) }
    ensures err { IfErr result (λ n. ReadInto (R.remaining from.old) (R.remaining from.new) buf.new n) }
    ensures whole { IfOk result (λ n. (n ≡ length buf.new) ⊎ IsAtEnd (R.remaining from.new)) }
{
    let mut n = 0;
    while n < buf.len() {
        match from.read(&mut buf[n..]) {
            Ok(0) => return Ok(n),
            Ok(k) => n += k,
            Err(_) => return Err(n),
        }
    }
    Ok(n)
}
