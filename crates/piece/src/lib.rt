// Pieces of an address field: CRLF, space, piece; and the pieces of a comment.
#![tactic(auto)]

mod comment_pieces;

ghost use Rattle.std.specs.Prelude.{◌≡◌, cond, ◌&&◌, ◌*◌, leb};
ghost use Rattle.buffer.specs.Buffer.{AppendedCapped};
ghost use Rattle.encoded_word.specs.Segments.{bytes_of};
ghost use Rattle.piece.specs.Piece.{piece};

pub use comment_pieces::put_comment;

// Writes a piece that is some bytes as they stand from a place on, as far as it fits; answers the place after it.
pub fn add_piece(out: &mut [u8], at: usize, text: &[u8]) -> usize
    ensures { AppendedCapped (bytes_of (piece text.now)) at out.old out.new result }
{
    let next = buffer::add_slice(out, at, b"\r\n ");
    buffer::add_slice(out, next, text)
}

// Kept: 0 is a length here, that of a text that counts as empty (`fitting`).
// The length of a text; none where a scratch with so much room cannot serve it.
pub fn fitting_len(room: usize, n: usize) -> usize
    ensures { result ≡ cond (leb n 32768 && leb (2 * n) room) n 0 }
{
    if 32768 < n {
        return 0;
    }
    if room < 2 * n {
        return 0;
    }
    n
}
