// Bytes written in the spelling of a word.
ghost use Rattle.std.specs.Prelude.{◌≡◌, ◌++◌, ◌+◌, ◌≤◌, length};
ghost use Rattle.buffer.specs.Buffer.{Appended};
ghost use Rattle.word_spelling.specs.Spelling.{escape, spell_byte, spell};
ghost use Rattle.word_spelling.specs.Cost.{cost};

use word_spelling::first_of;

// Writes some bytes, where they fit.
pub(crate) fn put_bytes<const N: usize>(out: &mut [u8], at: usize, bytes: &[u8; N]) -> usize
    requires { at + N ≤ length out.old }
    ensures { Appended bytes.now at out.old out.new result }
{
    let end = at + N;
    out[at..end].copy_from_slice(bytes);
    end
}

// Writes `=` and two hex digits.
// Kept: `put_bytes` of an array that is just made takes half as long again, since its bytes are stored one by one and then read together.
pub(crate) fn put_escape(out: &mut [u8], at: usize, b: u8) -> usize
    requires { at + 3 ≤ length out.old }
    ensures { Appended (escape b) at out.old out.new result }
{
    let high = hex_digit::digit(b / 16);
    let low = hex_digit::digit(b % 16);
    let second = at + 1;
    let third = second + 1;
    out[at] = b'=';
    out[second] = high;
    out[third] = low;
    third + 1
}

// The same of two bytes.
pub(crate) fn put_escapes(out: &mut [u8], at: usize, a: u8, b: u8) -> usize
    requires { at + 6 ≤ length out.old }
    ensures { Appended (escape a ++ escape b) at out.old out.new result }
{
    let next = put_escape(out, at, a);
    put_escape(out, next, b)
}

// Writes a byte.
pub(crate) fn put_byte(out: &mut [u8], at: usize, b: u8) -> usize
    requires { at + 3 ≤ length out.old }
    ensures { Appended (spell_byte b) at out.old out.new result }
{
    let c = first_of(b);
    if c == b'=' {
        return put_escape(out, at, b);
    }
    out[at] = c;
    at + 1
}

// Writes the bytes of a character, where two more would fit after them.
pub(crate) fn put_char(out: &mut [u8], at: usize, c: &[u8]) -> usize
    requires { at + cost c.now + 2 ≤ length out.old }
    ensures { Appended (spell c.now) at out.old out.new result }
{
    let mut next = at;
    for b in c {
        next = put_byte(out, next, *b);
    }
    next
}
