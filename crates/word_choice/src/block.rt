// Tests of the first bytes of a text, all of them, without an early exit.
ghost use Rattle.std.specs.Prelude.{◌≡◌, true, ◌||◌, ◌≤◌, ◌<◌, leb, eqb, length, take};
ghost use Rattle.word_spelling.specs.Spelling.{bare};
ghost use Rattle.word_choice.specs.Block.{count, plain, other};
ghost use Rattle.word_choice.specs.BlockLaws.{dear, placed, Regular, step_back};

use byte_class::Class;
use utf8::is_tail;

// Whether a byte is a letter, a digit or a space.
fn is_plain(b: u8) -> bool
    ensures { result ≡ plain b }
{
    (65 <= b) & (b <= 90) | (97 <= b) & (b <= 122) | (48 <= b) & (b <= 57) | (b == 32)
}

// Whether a byte takes one character of a word in Q.
fn single(b: u8) -> bool
    ensures { result ≡ (bare b || eqb b 32) }
{
    (65 <= b) & (b <= 90)
        | (97 <= b) & (b <= 122)
        | (48 <= b) & (b <= 57)
        | (b == 33)
        | (b == 42)
        | (b == 43)
        | (b == 45)
        | (b == 47)
        | (b == 32)
}

// The bytes that are neither letters, digits nor spaces.
struct Other;

impl Class for Other {
    ghost member = { other };

    fn holds(b: u8) -> bool {
        !is_plain(b)
    }
}

// The bytes that take three characters of a word in Q.
pub(crate) struct Escaped;

impl Class for Escaped {
    ghost member = { dear };

    fn holds(b: u8) -> bool {
        !single(b)
    }
}

// The bytes that are not ASCII.
pub(crate) struct High;

impl Class for High {
    ghost member = { λ b. leb 128 b };

    fn holds(b: u8) -> bool {
        128 <= b
    }
}

// How many bytes of a short text are of a class. It counts in a byte, so that a vector holds 16 counts (`byte_class::count` counts in 8 bytes).
pub(crate) fn count<C: Class>(s: &[u8]) -> usize
    requires { length s.now ≤ 48 }
    ensures { (result ≡ count C.member s.now) × (result ≤ 48) }
{
    let mut n = 0u8;
    for b in s {
        n += u8::from(C::holds(*b));
    }
    usize::from(n)
}

// How many of the first 48 bytes are neither letters, digits nor spaces: a fixed count of bytes.
pub(crate) fn others(s: &[u8]) -> usize
    requires { 48 ≤ length s.now }
    ensures { (result ≡ count other (take 48 s.now)) × (result ≤ 48) }
{
    count::<Other>(&s[..48])
}

// Whether a byte c after a and b continues a character just where one of them asks for it, and starts none of more than three bytes.
fn is_placed(a: u8, b: u8, c: u8) -> bool
    ensures { result ≡ placed a b c }
{
    let asked = (192 <= b) | (224 <= a);
    let tail = is_tail(c);
    (asked & tail | !asked & !tail) & (c < 240)
}

// Whether the first 50 bytes are so.
pub(crate) fn regular(s: &[u8]) -> bool
    requires { 50 ≤ length s.now }
    ensures { result ≡ true → Regular s.now }
{
    let a = s[0];
    if !is_placed(0, 0, a) {
        return false;
    }
    if !is_placed(0, a, s[1]) {
        return false;
    }
    let mut ok = true;
    for k in 2..50 {
        let i = k - 2;
        let j = k - 1;
        ok = ok & is_placed(s[i], s[j], s[k]);
    }
    ok
}

// The start of the character in which the byte at a place stands, where it has at most three bytes.
pub(crate) fn step_back(s: &[u8], limit: usize) -> usize
    requires { (2 ≤ limit) × (limit < length s.now) }
    ensures { result ≡ step_back s.now limit }
{
    let before = limit - 1;
    let inside = is_tail(s[limit]);
    let further = inside & is_tail(s[before]);
    limit - usize::from(inside) - usize::from(further)
}
