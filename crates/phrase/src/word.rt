// Words, phrases and addresses of an address field, by position in its text. Lengths count bytes.
ghost use Rattle.std.specs.Prelude.{◌≡◌, ◌-◌, ◌≤◌, length, drop};
ghost use Rattle.lists.specs.Lists.{nonzero};
ghost use Rattle.phrase.specs.Words.{capped, is_word_byte, address_len, word_len, next_word_len, phrase_len};

use byte_class::{Class, run_end};
use line::blanks_end;

// A length; none where it is 0 or exceeds 900.
fn capped(n: usize) -> Option<usize>
    ensures { result ≡ nonzero (capped n) }
{
    match n {
        1..=900 => Some(n),
        _ => None,
    }
}

// The length of the address at a place.
pub fn address_len(s: &[u8], at: usize) -> Option<usize>
    ensures { (result ≡ nonzero (address_len (drop at s.now))) × (address_len (drop at s.now) ≤ length s.now - at) }
{
    let end = address::address(s, at).ok()?;
    capped(end - at)
}

fn is_word_byte(b: u8) -> bool
    ensures { result ≡ is_word_byte b }
{
    address::atom::is_atom_byte(b) | (b == b'.')
}

// atext, dots and non-ASCII bytes.
struct WordByte;

impl Class for WordByte {
    ghost member = { is_word_byte };

    fn holds(b: u8) -> bool {
        is_word_byte(b)
    }
}

// The length of the word at a place: a quoted string, or the run of its bytes.
pub(crate) fn word_len(s: &[u8], at: usize) -> Option<usize>
    ensures { (result ≡ nonzero (word_len (drop at s.now))) × (word_len (drop at s.now) ≤ length s.now - at) }
{
    if line::byte_at(s, at) == b'"' {
        let end = address::quoted::quoted(s, at).ok()?;
        return capped(end - at);
    }
    capped(run_end::<WordByte>(s, at) - at)
}

// The length of the blanks, at least one, and the word after them at a place.
fn next_word_len(s: &[u8], at: usize) -> Option<usize>
    ensures { (result ≡ nonzero (next_word_len (drop at s.now))) × (next_word_len (drop at s.now) ≤ length s.now - at) }
{
    let e = blanks_end(s, at);
    if e == at {
        return None;
    }
    let word = word_len(s, e)?;
    Some(e - at + word)
}

// The length of the phrase at the front.
pub fn phrase_len(s: &[u8]) -> Option<usize>
    ensures { (result ≡ nonzero (phrase_len s.now)) × (phrase_len s.now ≤ length s.now) }
{
    let mut end = word_len(s, 0)?;
    while let Some(n) = next_word_len(s, end) {
        end += n;
    }
    Some(end)
}
