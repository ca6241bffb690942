// The lines of a row.
ghost use Rattle.std.specs.Prelude.{◌≡◌, ◌≤◌, ◌<◌, length, drop};
ghost use Rattle.buffer.specs.Buffer.{AppendedCapped};
ghost use Rattle.row.specs.Row.{row};
ghost use Rattle.encoded_word.specs.Writing.{Begun, Ran};

use crate::character::Put;
use crate::word::{put_line, put_word};

// A space and a word on the line of a name and its colon, which have `column` characters: any character fits there.
fn put_first(out: &mut [u8], column: usize, text: &[u8]) -> Put
    requires { (column ≤ 39) × (0 < length text.now) × (76 ≤ length out.old) }
    ensures { Begun column text.now out.old out.new result.end result.at }
{
    out[0] = 32;
    put_word(out, 1, 63 - column, text)
}

// What stands on the line of a name and its colon, clipped: a space and a word, or nothing. The word is written beside the buffer, and then
// copied as far as it fits.
fn add_clipped(out: &mut [u8], column: usize, text: &[u8]) -> Put
    requires { column ≤ 63 }
    ensures { Begun column text.now out.old out.new result.end result.at }
{
    let mut piece = [0u8; 75];
    let w = put_word(&mut piece, 0, 63 - column, text);
    let e = w.end;
    let n = w.at;
    if e == 0 {
        return Put { end: 0, at: 0 };
    }
    let spaced = buffer::add_byte(out, 0, 32);
    let after = buffer::add_slice(out, spaced, &piece[..n]);
    Put { end: e, at: after }
}

// What stands on the line of a name and its colon, which have `column` characters.
pub(crate) fn add_first(out: &mut [u8], column: usize, text: &[u8]) -> Put
    ensures { Begun column text.now out.old out.new result.end result.at }
{
    if 63 <= column {
        return Put { end: 0, at: 0 };
    }
    if (column <= 39) & (0 < text.len()) & (76 <= out.len()) {
        return put_first(out, column, text);
    }
    add_clipped(out, column, text)
}

// Lines from the place `begin` of the text on, as long as the buffer has room for the next whatever it is.
pub(crate) fn put_lines(out: &mut [u8], start: usize, text: &[u8], begin: usize) -> Put
    requires { begin ≤ length text.now }
    ensures { Ran text.now begin start out.old out.new result.end result.at }
{
    let mut i = begin;
    let mut at = start;
    if 78 <= out.len() {
        let last = out.len() - 78;
        while (i < text.len()) & (at <= last) {
            let w = put_line(out, at, &text[i..]);
            i += w.end;
            at = w.at;
        }
    }
    Put { end: i, at }
}

// Lines from the place `begin` of the text on, clipped: each is written beside the buffer, and then copied as far as it fits.
pub(crate) fn add_lines(out: &mut [u8], start: usize, text: &[u8], begin: usize) -> usize
    requires { begin ≤ length text.now }
    ensures { AppendedCapped (row (drop begin text.now)) start out.old out.new result }
{
    if text.len() <= begin {
        return start;
    }
    let mut piece = [0u8; 78];
    let mut at = start;
    let mut i = begin;
    while i < text.len() {
        let w = put_line(&mut piece, 0, &text[i..]);
        let n = w.at;
        at = buffer::add_slice(out, at, &piece[..n]);
        i += w.end;
    }
    at
}
