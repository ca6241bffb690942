// Bytes in the spelling of a word: how many characters they take, and the characters of a text that are not ASCII.
#![tactic(auto)]

ghost use Rattle.std.specs.Prelude.{◌≡◌, ◌+◌, ◌-◌, ◌≤◌, min, length, take, drop, get_or};
ghost use Rattle.lists.specs.Lists.{nonzero};
ghost use Rattle.utf8.specs.Utf8.{char_len};
ghost use Rattle.word_spelling.specs.Cost.{byte_cost, cost};
ghost use Rattle.word_spelling.specs.FirstChars.{first_char, first_chars, cost_in, costs_in};
ghost use Rattle.word_spelling.specs.HighChar.{HighChar, high_size};

// The first character of each byte's spelling, 32 bytes to a line: its only one, or the `=` of an escape.
static FIRST_CHARS: [u8; 256] = *b"\
    ================================\
    _!========*+=-=/0123456789======\
    =ABCDEFGHIJKLMNOPQRSTUVWXYZ=====\
    =abcdefghijklmnopqrstuvwxyz=====\
    ================================\
    ================================\
    ================================\
    ================================";

// The table of first characters.
pub fn first_chars() -> [u8; 256]
    ensures { result ≡ first_chars }
{
    FIRST_CHARS
}

// The first character of a byte's spelling, by a table of them.
// Kept: docs/LANDINGS.md names `byte_cost` and `char_cost`, which answer for any table, as this does; `first_of`, `cost_of`, `cost_at` have ours.
pub fn first_char(first: &[u8; 256], b: u8) -> u8
    ensures { result ≡ get_or first.now b 0 }
{
    first[usize::from(b)]
}

// How many characters of a word a byte takes, by a table of first characters.
pub fn byte_cost(first: &[u8; 256], b: u8) -> usize
    ensures { (result ≡ cost_in first.now b) × (result ≤ 3) }
{
    if first_char(first, b) == 61 { 3 } else { 1 }
}

// Where the character at a place ends, by its first byte and the end of the text.
pub fn char_end(s: &[u8], i: usize) -> usize
    ensures { result ≡ min (i + char_len (get_or s.now i 0)) (length s.now) }
{
    if s.len() <= i {
        return s.len();
    }
    let size = utf8::char_len(s[i]);
    if size < s.len() - i {
        return i + size;
    }
    s.len()
}

// Where the character at a place ends, and how many characters of a word it takes.
#[derive(Clone, Copy, Debug, PartialEq, Eq)]
pub struct Taken {
    pub end: usize,
    pub cost: usize,
}

// Where the character at a place ends, and what it takes, by a table of first characters.
pub fn char_cost(first: &[u8; 256], s: &[u8], i: usize) -> Taken
    ensures { (result.end ≡ min (i + char_len (get_or s.now i 0)) (length s.now)) × (result.cost ≡ costs_in first.now (take (result.end - i) (drop i s.now))) }
{
    let end = char_end(s, i);
    let mut n = 0;
    for j in i..end {
        n += byte_cost(first, s[j]);
    }
    Taken { end, cost: n }
}

// The first character of a byte's spelling.
pub fn first_of(b: u8) -> u8
    ensures { result ≡ first_char b }
{
    first_char(&FIRST_CHARS, b)
}

// How many characters of a word a byte takes.
pub fn cost_of(b: u8) -> usize
    ensures { (result ≡ byte_cost b) × (result ≤ 3) }
{
    byte_cost(&FIRST_CHARS, b)
}

// Where the character at a place ends, and what it takes.
pub fn cost_at(s: &[u8], i: usize) -> Taken
    ensures { (result.end ≡ min (i + char_len (get_or s.now i 0)) (length s.now)) × (result.cost ≡ cost (take (result.end - i) (drop i s.now))) }
{
    char_cost(&FIRST_CHARS, s, i)
}

// The length of the character at a place, 2 to 4, where the text holds it whole and none of its bytes is ASCII.
pub fn high_size(s: &[u8], i: usize) -> Option<usize>
    ensures { (result ≡ nonzero (high_size s.now i)) × HighChar s.now i (high_size s.now i) }
{
    if s.len() <= i {
        return None;
    }
    let size = utf8::char_len(s[i]);
    if !((2 <= size) & (size <= 4) & (size <= s.len() - i)) {
        return None;
    }
    let j = i + 1;
    if s[j] < 128 {
        return None;
    }
    if size == 2 {
        return Some(2);
    }
    let k = j + 1;
    if s[k] < 128 {
        return None;
    }
    if size == 3 {
        return Some(3);
    }
    if s[k + 1] < 128 {
        return None;
    }
    Some(4)
}
