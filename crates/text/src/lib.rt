// Text in bytes, written into a lent slice from a place on: a byte, bytes, a line feed, spaces, a number in decimal, a line of numbers.
// Each such call hands back the place behind what it wrote, and asks for no more room than that takes. `digits` counts the digits of a
// number. Definitions: specs/Text. Laws for callers:
// proofs/Decimal: how many digits a number has, and how long a line of numbers is.
// proofs/Writing: texts one after another.
#![tactic(auto)]

ghost use Rattle.std.specs.Prelude.{◌≡◌, [], ◌∷◌, ◌+◌, ◌%◌, ◌≤◌, ◌<◌, length, replicate};
ghost use Rattle.text.specs.Text.{decimal, numbers_line};
ghost use Rattle.text.specs.Inner.{Puts};

pub fn put(out: &mut [u8], at: usize, b: u8) -> usize
    requires { at < length out.old }
    ensures { Puts (b ∷ []) at out.old result out.new }
{
    out[at] = b;
    at + 1
}

pub fn put_bytes(out: &mut [u8], at: usize, bytes: &[u8]) -> usize
    requires { at + length bytes.now ≤ length out.old }
    ensures { Puts bytes.now at out.old result out.new }
{
    for (k, b) in bytes.iter().enumerate() {
        out[at + k] = *b;
    }
    at + bytes.len()
}

// A line feed.
pub fn put_feed(out: &mut [u8], at: usize) -> usize
    requires { at < length out.old }
    ensures { Puts (10 ∷ []) at out.old result out.new }
{
    put(out, at, b'\n')
}

// So many spaces.
pub fn put_spaces(out: &mut [u8], at: usize, n: usize) -> usize
    requires { at + n ≤ length out.old }
    ensures { Puts (replicate n 32) at out.old result out.new }
{
    for k in 0..n {
        out[at + k] = b' ';
    }
    at + n
}

// The last digit.
fn digit(n: u64) -> u8
    ensures { result ≡ 48 + n % 10 }
{
    b'0' + (n % 10) as u8
}

// How many digits a number has.
pub fn digits(n: u64) -> usize
    ensures { result ≡ length (decimal n) }
{
    let mut rest = n;
    let mut count = 1;
    while 10 <= rest {
        rest /= 10;
        count += 1;
    }
    count
}

// A number in decimal, from its last digit on: a recursion would make the stack of a call depend on the number.
pub fn put_number(out: &mut [u8], at: usize, n: u64) -> usize
    requires { at + length (decimal n) ≤ length out.old }
    ensures { Puts (decimal n) at out.old result out.new }
{
    let end = at + digits(n);
    let mut rest = n;
    for k in (at..end).rev() {
        out[k] = digit(rest);
        rest /= 10;
    }
    end
}

// A space and a number.
fn put_next(out: &mut [u8], at: usize, n: u64) -> usize
    requires { at + length (32 ∷ decimal n) ≤ length out.old }
    ensures { Puts (32 ∷ decimal n) at out.old result out.new }
{
    let next = put(out, at, b' ');
    put_number(out, next, n)
}

// Numbers with one space between them, and a line feed.
pub fn put_numbers(out: &mut [u8], at: usize, numbers: &[u64]) -> usize
    requires { at + length (numbers_line numbers.now) ≤ length out.old }
    ensures { Puts (numbers_line numbers.now) at out.old result out.new }
{
    let Some((first, others)) = numbers.split_first() else {
        return put_feed(out, at);
    };
    let mut next = put_number(out, at, *first);
    for number in others {
        next = put_next(out, next, *number);
    }
    put_feed(out, next)
}
