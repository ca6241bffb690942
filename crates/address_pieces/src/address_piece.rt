// Pieces: CRLF, space, piece. Each is written to the front of the rest of the output that is lent to it.
ghost use Rattle.std.specs.Prelude.{List, ℕ, map, ◌≤◌, length};
ghost use Rattle.buffer.specs.Buffer.{Wrote};
ghost use Rattle.rules.specs.Rules.{removal_start, removal_end};
ghost use Rattle.encoded_word.specs.Segments.{Segment, bytes_of, rendered};
ghost use Rattle.piece.specs.Piece.{piece, piece as as_it_stands};
ghost use Rattle.address_pieces.specs.Pieces.{in_angles, removed};

use rules::Rules;

// How an address stands in its piece.
pub(crate) trait Form {
    ghost piece: { List ℕ → Segment };

    fn put(out: &mut [u8], address: &[u8]) -> usize
        requires { length address.now ≤ 32768 }
        ensures { Wrote (bytes_of (piece address.now)) out.old out.new result };
}

// A piece that is some bytes as they stand.
pub(crate) struct Bare;

impl Form for Bare {
    ghost piece = { as_it_stands };

    fn put(out: &mut [u8], text: &[u8]) -> usize {
        put_piece(out, text)
    }
}

// A piece that is an address in `< >`.
pub(crate) struct InAngles;

impl Form for InAngles {
    ghost piece = { in_angles };

    fn put(out: &mut [u8], address: &[u8]) -> usize {
        put_in_angles(out, address)
    }
}

// A piece that is some bytes as they stand.
pub(crate) fn put_piece(out: &mut [u8], text: &[u8]) -> usize
    requires { length text.now ≤ 32768 }
    ensures { Wrote (bytes_of (piece text.now)) out.old out.new result }
{
    piece::add_piece(out, 0, text)
}

// A piece that is an address in `< >`.
pub(crate) fn put_in_angles(out: &mut [u8], address: &[u8]) -> usize
    requires { length address.now ≤ 32768 }
    ensures { Wrote (bytes_of (in_angles address.now)) out.old out.new result }
{
    let open = buffer::put_slice(out, b"\r\n <");
    let close = buffer::add_slice(out, open, address);
    buffer::add_byte(out, close, b'>')
}

// The pieces before the encoded words of an address that is removed.
fn put_removal_start(out: &mut [u8], rules: Rules) -> usize
    ensures { Wrote (rendered (map piece (removal_start rules))) out.old out.new result }
{
    match rules {
        Rules::Spool | Rules::Current => put_piece(out, b"Internationalized Address"),
        Rules::Mailbox => 0,
    }
}

// The piece after them.
fn put_removal_end(out: &mut [u8], rules: Rules) -> usize
    ensures { Wrote (bytes_of (piece (removal_end rules))) out.old out.new result }
{
    match rules {
        Rules::Spool | Rules::Current => put_piece(out, b"Removed:;"),
        Rules::Mailbox => put_piece(out, b":;"),
    }
}

// The pieces in place of an address that is removed.
pub(crate) fn put_removed(out: &mut [u8], rules: Rules, address: &[u8]) -> usize
    requires { length address.now ≤ 32768 }
    ensures { Wrote (rendered (removed rules address.now)) out.old out.new result }
{
    let words = put_removal_start(out, rules);
    let a = buffer::clip(words, out.len());
    let end = buffer::place_after(words, encoded_word::write(&mut out[a..], address));
    let b = buffer::clip(end, out.len());
    buffer::place_after(end, put_removal_end(&mut out[b..], rules))
}
