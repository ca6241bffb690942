// The pieces of a part.
ghost use Rattle.std.specs.Prelude.{◌*◌, ◌≤◌, length};
ghost use Rattle.buffer.specs.Buffer.{Wrote};
ghost use Rattle.encoded_word.specs.Segments.{rendered};
ghost use Rattle.address_list.specs.Parts.{inner_end};
ghost use Rattle.address_pieces.specs.Pieces.{address_pieces, pieces};

use crate::address_piece::{Bare, Form, InAngles, put_in_angles, put_piece, put_removed};
use crate::phrase_pieces::put_phrase;
use address_list::PartKind;
use rules::Rules;

// An address, or what is written in its place.
fn put_address<F: Form>(out: &mut [u8], rules: Rules, address: &[u8]) -> usize
    requires { length address.now ≤ 32768 }
    ensures { Wrote (rendered (address_pieces rules F.piece address.now)) out.old out.new result }
{
    if utf8::is_ascii(address) {
        return F::put(out, address);
    }
    put_removed(out, rules, address)
}

// The pieces of a part.
pub(crate) fn put_part(
    out: &mut [u8],
    rules: Rules,
    t: &[u8],
    kind: PartKind,
    scratch: &mut [u8],
) -> usize
    requires { (length t.now ≤ 32768) × ((2 * length t.now ≤ length scratch.old) × (inner_end kind ≤ length t.now)) }
    ensures { Wrote (rendered (pieces rules kind t.now)) out.old out.new result }
{
    match kind {
        PartKind::Blank | PartKind::Stray => 0,
        PartKind::Comment => piece::put_comment(out, t, scratch),
        PartKind::Comma => buffer::put_byte(out, b','),
        PartKind::Colon => put_piece(out, b":"),
        PartKind::Semicolon => put_piece(out, b";"),
        PartKind::Phrase => put_phrase(out, t, scratch),
        PartKind::Address => put_address::<Bare>(out, rules, t),
        PartKind::Angled(start, size) => {
            let end = start + size;
            put_address::<InAngles>(out, rules, &t[start..end])
        }
        PartKind::Alternative(start, size) => {
            let end = start + size;
            put_in_angles(out, &t[start..end])
        }
    }
}
