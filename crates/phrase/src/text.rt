// The words of a phrase, and its text.
ghost use Rattle.std.specs.Prelude.{map, drop};
ghost use Rattle.buffer.specs.Buffer.{AppendedCapped};
ghost use Rattle.unquote.specs.Unquote.{unquoted};
ghost use Rattle.phrase.specs.Phrase.{WordEnd, words_from, after_spaces, phrase_text};

use crate::word::word_len;
use line::blanks_end;

// Where the word at a place of a phrase ends.
pub fn word_end(phrase: &[u8], at: usize) -> usize
    ensures { WordEnd phrase.now at result }
{
    match word_len(phrase, at) {
        Some(n) => at + n,
        None => at.max(phrase.len()),
    }
}

// The words of a phrase from a place on without quoting and escapes, each after a space.
fn add_spaced(out: &mut [u8], at: usize, phrase: &[u8], from: usize) -> usize
    ensures { AppendedCapped (after_spaces (map unquoted (words_from 0 (drop from phrase.now)))) at out.old out.new result }
{
    let mut next = at;
    let mut i = from;
    while i < phrase.len() {
        let e = word_end(phrase, i);
        let word = buffer::add_byte(out, next, b' ');
        next = unquote::add_unquoted(out, word, &phrase[i..e]);
        i = blanks_end(phrase, e);
    }
    next
}

// Writes the text of a phrase from a place on, as far as it fits: its words without quoting and escapes, joined by single spaces.
// Answers the place after it.
pub fn add_text(out: &mut [u8], at: usize, phrase: &[u8]) -> usize
    ensures { AppendedCapped (phrase_text phrase.now) at out.old out.new result }
{
    if phrase.len() == 0 {
        return at;
    }
    let first = word_end(phrase, 0);
    let next = unquote::add_unquoted(out, at, &phrase[0..first]);
    add_spaced(out, next, phrase, blanks_end(phrase, first))
}
