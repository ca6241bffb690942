#![tactic(auto)]

ghost use Rattle.std.specs.Prelude.{◌≡◌, ℕ, Bool, ◌+◌, ◌-◌, ◌≤◌, length, drop, get_or};
ghost use Rattle.lists.specs.Lists.{all};
ghost use Rattle.lists.specs.Byte.{is_ascii};
ghost use Rattle.utf8.specs.Utf8.{char_len, second_low, second_high, continues, char_at, ascii_run, utf8};
ghost use Rattle.utf8.specs.Window.{placed, placed3, whole, starts, window_at, all_at};

use byte_class::Class;

// A character's length in bytes, by its first byte.
pub fn char_len(b: u8) -> usize
    ensures { result ≡ char_len b }
{
    if b < 128 {
        return 1;
    }
    u8::leading_zeros(!b) as usize
}

// The least and the greatest second byte after the first byte a.
pub fn second_low(a: u8) -> u8
    ensures { result ≡ second_low a }
{
    if a == 224 {
        return 160;
    }
    if a == 240 {
        return 144;
    }
    128
}

pub fn second_high(a: u8) -> u8
    ensures { result ≡ second_high a }
{
    if a == 237 {
        return 159;
    }
    if a == 244 {
        return 143;
    }
    191
}

// Whether a byte continues a character.
pub fn is_tail(b: u8) -> bool
    ensures { result ≡ continues b }
{
    (128 <= b) & (b <= 191)
}

// The length of the character at `at`; 0 where none starts there. Lengths are answered as constants, so that a loop over a
// text need not wait for n.
pub fn char_at(s: &[u8], at: usize) -> usize
    ensures { result ≡ char_at (drop at s.now) }
{
    if s.len() <= at {
        return 0;
    }
    let a = s[at];
    if a < 128 {
        return 1;
    }
    let n = char_len(a);
    if !((194 <= a) & (a <= 244) & (n <= s.len() - at)) {
        return 0;
    }
    let b = s[at + 1];
    if n == 2 {
        if !is_tail(b) {
            return 0;
        }
        return 2;
    }
    if !((second_low(a) <= b) & (b <= second_high(a)) & is_tail(s[at + 2])) {
        return 0;
    }
    if n == 3 {
        return 3;
    }
    if !is_tail(s[at + 3]) {
        return 0;
    }
    4
}

// The bytes of ASCII.
struct Ascii;

impl Class for Ascii {
    ghost member = { is_ascii };

    fn holds(b: u8) -> bool {
        b < 128
    }
}

// Where the run of ASCII bytes from `at` ends. A block costs more than a test of the first byte, which ends most runs in text
// that is not ASCII.
pub fn ascii_end(s: &[u8], at: usize) -> usize
    ensures { result ≡ at + ascii_run (drop at s.now) }
{
    if s.len() <= at {
        return at;
    }
    if 128 <= s[at] {
        return at;
    }
    byte_class::long_run_end::<Ascii>(s, at)
}

// Whether every byte is ASCII. Without an early exit: most texts are ASCII to their end.
pub fn is_ascii(s: &[u8]) -> bool
    ensures { result ≡ all is_ascii s.now }
{
    byte_class::long_are_all::<Ascii>(s)
}

// Whether the byte d may stand after a, b and c in UTF-8. Without branches, so that a loop over it is compiled to vector instructions.
pub fn is_placed(a: u8, b: u8, c: u8, d: u8) -> bool
    ensures { result ≡ placed a b c d }
{
    let asked = (192 <= c) | (224 <= b) | (240 <= a);
    let tail = (128 <= d) & (d <= 191);
    (asked & tail | !asked & !tail)
        & !((d == 192) | (d == 193))
        & (d < 245)
        & !((c == 224) & (d < 160))
        & !((c == 237) & (160 <= d))
        & !((c == 240) & (d < 144))
        & !((c == 244) & (144 <= d))
}

// The same among characters of at most three bytes, with fewer tests: for blocks, where the tests of other bytes show that c is below 240.
pub fn is_placed3(a: u8, b: u8, c: u8, d: u8) -> bool
    ensures { result ≡ placed3 a b c d }
{
    let asked = (192 <= c) | (224 <= b);
    let tail = (128 <= d) & (d <= 191);
    (asked & tail | !asked & !tail)
        & !((d == 192) | (d == 193))
        & (d < 240)
        & !((c == 224) & (d < 160))
        & !((c == 237) & (160 <= d))
        & (a < 240)
}

// A test of a byte beside the three before it. Without branches, as in `is_placed`.
pub trait Window {
    ghost passes: { ℕ → ℕ → ℕ → ℕ → Bool };

    fn holds(a: u8, b: u8, c: u8, d: u8) -> bool
        ensures { result ≡ passes a b c d };
}

// Whether all bytes from the fourth on pass. Without an early exit, so that it is compiled to vector instructions for a slice
// of known length.
#[inline]
pub fn all_windows<W: Window>(s: &[u8]) -> bool
    ensures { result ≡ all_at (window_at W.passes s.now) 0 (length s.now - 3) }
{
    let mut ok = true;
    for i in 3..s.len() {
        ok = ok & W::holds(s[i - 3], s[i - 2], s[i - 1], s[i]);
    }
    ok
}

// Bytes that are placed well.
struct Placed;

impl Window for Placed {
    ghost passes = { placed };

    fn holds(a: u8, b: u8, c: u8, d: u8) -> bool {
        is_placed(a, b, c, d)
    }
}

// Whether the three bytes from `at` end a character.
fn is_whole(s: &[u8], at: usize) -> bool
    requires { at + 3 ≤ length s.now }
    ensures { result ≡ whole (get_or s.now at 0) (get_or s.now (at + 1) 0) (get_or s.now (at + 2) 0) }
{
    (s[at + 2] < 192) & (s[at + 1] < 224) & (s[at] < 240)
}

// Whether the first three bytes are placed well.
fn starts_well(s: &[u8]) -> bool
    requires { 3 ≤ length s.now }
    ensures { result ≡ starts s.now }
{
    all_windows::<Placed>(&[0, 0, 0, s[0], s[1], s[2]])
}

// Whether all bytes from the fourth on are placed well, 32 at a time, each 32 beside the three before them. The last 32 end the
// text and may overlap those before them.
fn blocks_placed(s: &[u8]) -> bool
    requires { 35 ≤ length s.now }
    ensures { result ≡ all_at (window_at placed s.now) 0 (length s.now - 3) }
{
    let mut rest = s;
    while let Some(block) = rest.first_chunk::<35>() {
        if !all_windows::<Placed>(block) {
            return false;
        }
        rest = &rest[32..];
    }
    all_windows::<Placed>(&s[s.len() - 35..])
}

// Whether a text is UTF-8, character by character.
fn is_utf8_slowly(s: &[u8]) -> bool
    ensures { result ≡ utf8 s.now }
{
    let mut i = 0;
    while i < s.len() {
        if s[i] < 128 {
            i = ascii_end(s, i);
        } else {
            let n = char_at(s, i);
            if n == 0 {
                return false;
            }
            i += n;
        }
    }
    true
}

// Whether a text is UTF-8. Most texts are ASCII, which is tested in fewer instructions.
pub fn is_utf8(s: &[u8]) -> bool
    ensures { result ≡ utf8 s.now }
{
    if is_ascii(s) {
        return true;
    }
    if s.len() < 35 {
        return is_utf8_slowly(s);
    }
    if !starts_well(s) {
        return false;
    }
    if !is_whole(s, s.len() - 3) {
        return false;
    }
    blocks_placed(s)
}
