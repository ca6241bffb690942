// The length of the row of encoded words of a text (RFC 2047, charset UTF-8, encodings Q and B).
#![tactic(auto)]

mod character;

ghost use Rattle.std.specs.Prelude.{◌≡◌, ◌-◌, ◌≤◌, length};
ghost use Rattle.row.specs.Row.{row, row_after, bounded};
ghost use Rattle.word_choice.specs.EndInQLaws.{EndInQ, WordAt};
ghost use Rattle.row_length.specs.LengthLaws.{BeginsWith};

use character::next;
use word_choice::Choice;
use word_spelling::Taken;

// The longest text that has a row, in bytes.
const LIMIT: usize = 4294967296;

// As many characters as a word in Q holds: where they end, and how many characters stand between its opening and closing.
fn in_q(text: &[u8], room: usize) -> Taken
    requires { room ≤ 63 }
    ensures { EndInQ room text.now result.end result.cost }
{
    let mut e = 0;
    let mut n = 0;
    while e < text.len() {
        let left = room - n;
        let step = next(text, e, left);
        if left < step.cost {
            return Taken { end: e, cost: n };
        }
        n += step.cost;
        e = step.end;
    }
    Taken { end: e, cost: n }
}

// The word at the front of a text, which is lent anew to be handed on (docs/ARCHITECTURE.md, Speed).
fn word_at(text: &[u8], room: usize) -> Taken
    requires { room ≤ 63 }
    ensures { WordAt room text.now result.end result.cost }
{
    if word_choice::surely_in_q(&text[..], room) {
        return in_q(&text[..], room);
    }
    let choice = word_choice::choose(&text[..], room);
    match choice {
        Choice::InQ => in_q(&text[..], room),
        Choice::InB(e) => Taken {
            end: e,
            cost: (e + 2) / 3 * 4,
        },
    }
}

// What stands on the line of a name and its colon, which have `column` characters: where it ends in the text, and its length. A space and
// the word, or nothing.
fn first_line(column: usize, text: &[u8]) -> Taken
    ensures { BeginsWith column text.now result.end result.cost }
{
    if 63 <= column {
        return Taken { end: 0, cost: 0 };
    }
    let w = word_at(text, 63 - column);
    if w.end == 0 {
        return Taken { end: 0, cost: 0 };
    }
    Taken {
        end: w.end,
        cost: 13 + w.cost,
    }
}

// The length of a text's row after a name and its colon, which have `column` characters. A word on a line of its own has 15 characters
// around what stands in it.
pub fn len_after(column: usize, text: &[u8]) -> usize
    ensures { result ≡ length (row_after column (bounded text.now)) }
{
    if LIMIT < text.len() {
        return 0;
    }
    let begun = first_line(column, text);
    let mut i = begun.end;
    let mut n = begun.cost;
    while i < text.len() {
        let w = word_at(&text[i..], 63);
        n += 15 + w.cost;
        i += w.end;
    }
    n
}

// The length of a text's row.
pub fn len(text: &[u8]) -> usize
    ensures { result ≡ length (row (bounded text.now)) }
{
    len_after(63, text)
}
