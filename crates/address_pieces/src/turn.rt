// The pieces of a turn, and of a text turn by turn.
ghost use Rattle.std.specs.Prelude.{◌*◌, ◌≤◌, length};
ghost use Rattle.buffer.specs.Buffer.{Wrote, AppendedCapped};
ghost use Rattle.encoded_word.specs.Segments.{rendered};
ghost use Rattle.address_list.specs.Parts.{parts_of};
ghost use Rattle.group.specs.Group.{turn_for, turn_inner, turns_of};
ghost use Rattle.address_pieces.specs.Pieces.{turn_pieces, pieces_of};

use crate::address_piece::put_removed;
use crate::part::put_part;
use group::TurnKind;
use rules::Rules;

// The pieces in place of a group that loses a member, from its colon on; or else those of a part.
fn put_turn(out: &mut [u8], rules: Rules, t: &[u8], kind: TurnKind, scratch: &mut [u8]) -> usize
    requires { (length t.now ≤ 32768) × ((2 * length t.now ≤ length scratch.old) × (turn_inner kind ≤ length t.now)) }
    ensures { Wrote (rendered (turn_pieces rules (turn_for kind t.now))) out.old out.new result }
{
    match kind {
        TurnKind::OnePart(part) => put_part(out, rules, t, part, scratch),
        TurnKind::LostGroup => put_removed(out, rules, group::trimmed(t)),
    }
}

// The pieces of a text, turn by turn: the rest of the output is lent on from the place reached.
pub(crate) fn add_turns(
    out: &mut [u8],
    at: usize,
    rules: Rules,
    text: &[u8],
    scratch: &mut [u8],
) -> usize
    requires { (length text.now ≤ 32768) × (2 * length text.now ≤ length scratch.old) }
    ensures { AppendedCapped (rendered (pieces_of rules (turns_of (parts_of rules text.now)))) at out.old out.new result }
{
    let mut next = at;
    let mut i = 0;
    while i < text.len() {
        let turn = group::next_from(text, i, rules);
        let t = &text[turn.start..turn.end];
        let a = buffer::clip(next, out.len());
        next = buffer::place_after(next, put_turn(&mut out[a..], rules, t, turn.kind, scratch));
        i = turn.next;
    }
    next
}
