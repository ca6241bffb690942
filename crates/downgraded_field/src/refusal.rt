// Whether the words of a field can be read, and the length of the text that it is shown as.
ghost use Rattle.std.specs.Prelude.{◌≡◌, false, ◌≤◌, length, min};
ghost use Rattle.header.specs.FieldShape.{without_breaks};
ghost use Rattle.word_reader.specs.Word.{added};
ghost use Rattle.downgraded_field.specs.Shown.{word_number, turn_number, turn_text, lowest, shown, turns_of};
ghost use Rattle.downgraded_field.specs.ShownLaws.{turn_of, ShortRuns};
ghost use Rattle.downgraded_field.specs.FieldFaults.{number_of, number_so_far, ReadAs};

use crate::turn::{Turn, split_turn};
use crate::{FieldFault, text};

// The length of a word of a well-formed line, which has at most 998 bytes.
fn check_word(w: &[u8]) -> Result<usize, FieldFault>
    requires { length w.now ≤ 1024 }
    ensures { ReadAs (word_number w.now) (length (added w.now)) result }
{
    let mut scratch = [0u8; 1024];
    let read = word_reader::add(&mut scratch, 0, w);
    read.form?;
    if utf8::is_utf8(&scratch[..read.next]) {
        return Ok(read.next);
    }
    Err(FieldFault::NotUtf8)
}

// How long white space is without the CRLF of folds.
fn gap_length(gap: &[u8]) -> usize
    ensures { result ≡ length (without_breaks gap.now) }
{
    let mut none = [0u8; 0];
    text::add_gap(&mut none, 0, gap)
}

// The length of what a turn is shown as.
fn check_turn(turn: Turn, after: bool) -> Result<usize, FieldFault>
    requires { length turn.run.now ≤ 1024 }
    ensures { ReadAs (turn_number (turn_of turn.entry.gap.now turn.entry.run.now)) (length (turn_text after (turn_of turn.entry.gap.now turn.entry.run.now))) result }
{
    if !turn.is_word() {
        return Ok(gap_length(turn.gap) + turn.run.len());
    }
    let length = check_word(turn.run)?;
    if after {
        return Ok(length);
    }
    Ok(gap_length(turn.gap) + length)
}

// The lower of a fault and the one found before it, if any.
fn lower(found: Option<FieldFault>, fault: FieldFault) -> FieldFault
    ensures { number_of result ≡ min (number_so_far found) (number_of fault) }
{
    match found {
        Some(before) => before.min(fault),
        None => fault,
    }
}

// The length of the text, or the lowest fault of its turns.
pub(crate) fn check_turns(s: &[u8]) -> Result<usize, FieldFault>
    requires { ShortRuns s.now }
    ensures { ReadAs (lowest (turns_of s.now)) (length (shown false (turns_of s.now))) result }
{
    let mut found = None;
    let mut length: usize = 0;
    let mut after = false;
    let mut rest = s;
    while let Some((turn, more)) = split_turn(rest) {
        match check_turn(turn, after) {
            Ok(n) => length += n,
            Err(fault) => found = Some(lower(found, fault)),
        }
        after = turn.is_word();
        rest = more;
    }
    match found {
        Some(fault) => Err(fault),
        None => Ok(length),
    }
}
