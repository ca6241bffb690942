// An encoded word read: its charset, its encoding and the bytes that it adds.
#![tactic(auto)]

mod base64_text;
mod q_text;

ghost use Rattle.std.specs.Prelude.{◌≡◌};
ghost use Rattle.buffer.specs.Buffer.{AppendedCapped};
ghost use Rattle.word_reader.specs.Word.{is_word, not_question, charset_len, is_utf8_charset, text_ok, text_of, added, form_number};
ghost use Rattle.word_reader.specs.WordFaults.{number_of};

use byte_class::{Class, run_end};

// What reading a text finds: whether it has no fault, and the place after the bytes that it adds.
// Kept: a text with a fault adds bytes too, so that both are read whatever the flag says.
#[derive(Clone, Copy)]
pub(crate) struct Added {
    ok: bool,
    next: usize,
}

// Why a word has no text.
#[derive(Clone, Copy, Debug, PartialEq, Eq)]
pub enum WordFault {
    Malformed,
    Charset,
}

// What reading a word finds: whether it has a text, and the place after the bytes that it adds. A word with a fault may add some.
#[derive(Clone, Copy, Debug, PartialEq, Eq)]
pub struct WordRead {
    pub form: Result<(), WordFault>,
    pub next: usize,
}

// Whether a run of bytes is a word: four bytes or more from `=?` to `?=`.
pub fn is_word(w: &[u8]) -> bool
    ensures { result ≡ is_word w.now }
{
    if w.len() < 4 {
        return false;
    }
    let last = w.len() - 1;
    let before = w.len() - 2;
    (w[0] == 61) & (w[1] == 63) & (w[before] == 63) & (w[last] == 61)
}

struct NotQuestion;

impl Class for NotQuestion {
    ghost member = { not_question };

    fn holds(b: u8) -> bool {
        b != 63
    }
}

// Where the charset ends: at the first `?`.
#[tactic(auto, unfolding(crate::specs::Word::charset_len))]
fn charset_len(s: &[u8]) -> usize
    ensures { result ≡ charset_len s.now }
{
    run_end::<NotQuestion>(s, 0)
}

fn is_utf8_charset(s: &[u8]) -> bool
    ensures { result ≡ is_utf8_charset s.now }
{
    letter_case::same_any_case(line::part(s, 0, charset_len(s)), b"UTF-8")
}

// Adds the bytes of a word's text, by the small letter of its encoding.
#[tactic(auto, using(buffer::specs::BufferLaws::capped_none), unfolding(crate::specs::Word::text_ok, crate::specs::Word::text_of))]
fn add_text(out: &mut [u8], at: usize, letter: u8, s: &[u8]) -> Added
    ensures { (result.ok ≡ text_ok letter s.now) × AppendedCapped (text_of letter s.now) at out.old out.new result.next }
{
    match letter {
        b'q' => q_text::add(out, at, s),
        b'b' => base64_text::add(out, at, s),
        _ => Added {
            ok: false,
            next: at,
        },
    }
}

// Adds the bytes of a word from a place on, as far as they fit.
pub fn add(out: &mut [u8], at: usize, w: &[u8]) -> WordRead
    ensures { (number_of result.form ≡ form_number w.now) × AppendedCapped (added w.now) at out.old out.new result.next }
{
    let end = w.len() - buffer::clip(2, w.len());
    let s = line::part(w, 2, end);
    let n = charset_len(s);
    if !((line::byte_at(s, n) == 63) & (line::byte_at(s, n + 2) == 63)) {
        return WordRead {
            form: Err(WordFault::Malformed),
            next: at,
        };
    }
    let letter = letter_case::lower(line::byte_at(s, n + 1));
    let text = add_text(out, at, letter, line::part(s, n + 3, s.len()));
    let form = if !text.ok {
        Err(WordFault::Malformed)
    } else if is_utf8_charset(s) {
        Ok(())
    } else {
        Err(WordFault::Charset)
    };
    WordRead {
        form,
        next: text.next,
    }
}
