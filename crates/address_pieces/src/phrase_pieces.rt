// The pieces of a phrase.
ghost use Rattle.std.specs.Prelude.{map, ◌*◌, ◌≤◌, length};
ghost use Rattle.buffer.specs.Buffer.{Wrote};
ghost use Rattle.row.specs.Row.{row};
ghost use Rattle.encoded_word.specs.Segments.{rendered};
ghost use Rattle.phrase.specs.Phrase.{phrase_words, phrase_text};
ghost use Rattle.piece.specs.Piece.{piece};
ghost use Rattle.address_pieces.specs.Pieces.{phrase_pieces};

use crate::address_piece::put_piece;

// Kept: what these functions and those of part.rt and turn.rt require of a text and its scratch, as in piece/src/comment_pieces.rt.

// Each word of a phrase as it stands, a piece each.
fn put_words(out: &mut [u8], phrase: &[u8]) -> usize
    requires { length phrase.now ≤ 32768 }
    ensures { Wrote (rendered (map piece (phrase_words phrase.now))) out.old out.new result }
{
    let mut next = 0;
    let mut i = 0;
    while i < phrase.len() {
        let e = phrase::word_end(phrase, i);
        let a = buffer::clip(next, out.len());
        next = buffer::place_after(next, put_piece(&mut out[a..], &phrase[i..e]));
        i = line::blanks_end(phrase, e);
    }
    next
}

// The encoded words of a phrase. Its text is made in the scratch.
fn put_encoded(out: &mut [u8], phrase: &[u8], scratch: &mut [u8]) -> usize
    requires { (length phrase.now ≤ 32768) × (2 * length phrase.now ≤ length scratch.old) }
    ensures { Wrote (row (phrase_text phrase.now)) out.old out.new result }
{
    let n = phrase::add_text(scratch, 0, phrase);
    encoded_word::write(out, &scratch[..n])
}

// The pieces of a phrase.
pub(crate) fn put_phrase(out: &mut [u8], phrase: &[u8], scratch: &mut [u8]) -> usize
    requires { (length phrase.now ≤ 32768) × (2 * length phrase.now ≤ length scratch.old) }
    ensures { Wrote (rendered (phrase_pieces phrase.now)) out.old out.new result }
{
    if utf8::is_ascii(phrase) {
        return put_words(out, phrase);
    }
    put_encoded(out, phrase, scratch)
}
