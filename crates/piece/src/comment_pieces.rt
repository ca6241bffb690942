// The pieces of a comment.
ghost use Rattle.std.specs.Prelude.{◌≤◌, length};
ghost use Rattle.buffer.specs.Buffer.{Wrote};
ghost use Rattle.row.specs.Row.{row};
ghost use Rattle.comment.specs.Parts.{run_text};
ghost use Rattle.encoded_word.specs.Segments.{rendered};
ghost use Rattle.piece.specs.Piece.{fitting};
ghost use Rattle.piece.specs.CommentPieces.{part_pieces, comment_pieces};

use crate::{add_piece, fitting_len};

// Kept: what these functions require of a text and its scratch. Each passes a part of the text on with the same scratch, so that a
// struct of the two would be built anew, with its proof, at each call: `put_part(&mut out[a..], &comment[i..e], scratch)`.

// The encoded words of a run. Its text is made in the scratch.
fn put_encoded(out: &mut [u8], run: &[u8], scratch: &mut [u8]) -> usize
    requires { (length run.now ≤ 32768) × (length run.now ≤ length scratch.old) }
    ensures { Wrote (row (run_text run.now)) out.old out.new result }
{
    let n = comment::add_run_text(scratch, 0, run);
    encoded_word::write(out, &scratch[..n])
}

// The piece of a parenthesis or a run.
fn put_part(out: &mut [u8], part: &[u8], scratch: &mut [u8]) -> usize
    requires { (length part.now ≤ 32768) × (length part.now ≤ length scratch.old) }
    ensures { Wrote (rendered (part_pieces part.now)) out.old out.new result }
{
    if comment::is_blank_run(part) {
        return 0;
    }
    if utf8::is_ascii(part) {
        return add_piece(out, 0, part);
    }
    put_encoded(out, part, scratch)
}

// The pieces of a comment, part by part: the rest of the output is lent on from the place reached.
fn put_parts(out: &mut [u8], comment: &[u8], scratch: &mut [u8]) -> usize
    requires { (length comment.now ≤ 32768) × (length comment.now ≤ length scratch.old) }
    ensures { Wrote (rendered (comment_pieces comment.now)) out.old out.new result }
{
    let mut next = 0;
    let mut i = 0;
    while i < comment.len() {
        let e = comment::part_end(comment, i);
        let a = buffer::clip(next, out.len());
        next = buffer::place_after(next, put_part(&mut out[a..], &comment[i..e], scratch));
        i = e;
    }
    next
}

// Writes the pieces of a comment to the front of out, as far as they fit; answers their whole length. The scratch is where the text
// of a run is made: where it is shorter than twice the comment, or the comment longer than 32,768 bytes, the comment counts as empty.
pub fn put_comment(out: &mut [u8], comment: &[u8], scratch: &mut [u8]) -> usize
    ensures { Wrote (rendered (comment_pieces (fitting (length scratch.old) comment.now))) out.old out.new result }
{
    let end = fitting_len(scratch.len(), comment.len());
    put_parts(out, &comment[..end], scratch)
}
