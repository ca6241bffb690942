// The text that a field is shown as, written.
ghost use Rattle.std.specs.Prelude.{◌≡◌, false, [], ◌∷◌};
ghost use Rattle.buffer.specs.Buffer.{Wrote, AppendedCapped};
ghost use Rattle.header.specs.FieldShape.{without_breaks};
ghost use Rattle.downgraded_field.specs.Shown.{turn_text, shown, turns_of};
ghost use Rattle.downgraded_field.specs.ShownLaws.{turn_of};

use crate::turn::{Turn, split_turn};

// Adds a byte, unless it is a CR or LF.
fn add_unbroken(out: &mut [u8], at: usize, b: u8) -> usize
    ensures { AppendedCapped (without_breaks (b ∷ [])) at out.old out.new result }
{
    if (b == 13) | (b == 10) {
        return at;
    }
    buffer::add_byte(out, at, b)
}

// Adds white space without the CRLF of folds.
pub(crate) fn add_gap(out: &mut [u8], at: usize, gap: &[u8]) -> usize
    ensures { AppendedCapped (without_breaks gap.now) at out.old out.new result }
{
    let mut next = at;
    for b in gap {
        next = add_unbroken(out, next, *b);
    }
    next
}

// Adds what a turn is shown as; `after` tells whether the run before it is a word.
fn add_turn(out: &mut [u8], at: usize, turn: Turn, after: bool) -> usize
    ensures { AppendedCapped (turn_text after (turn_of turn.entry.gap.now turn.entry.run.now)) at out.old out.new result }
{
    if turn.is_word() {
        if after {
            return word_reader::add(out, at, turn.run).next;
        }
        let start = add_gap(out, at, turn.gap);
        return word_reader::add(out, start, turn.run).next;
    }
    let start = add_gap(out, at, turn.gap);
    buffer::add_slice(out, start, turn.run)
}

pub(crate) fn put_turns(out: &mut [u8], s: &[u8]) -> usize
    ensures { Wrote (shown false (turns_of s.now)) out.old out.new result }
{
    let mut at: usize = 0;
    let mut after = false;
    let mut rest = s;
    while let Some((turn, more)) = split_turn(rest) {
        at = add_turn(out, at, turn, after);
        after = turn.is_word();
        rest = more;
    }
    at
}
