// Rows of encoded words (RFC 2047, charset UTF-8, encodings Q and B): the row of a text is written, and measured.
#![tactic(auto)]

mod character;
mod lines;
mod spelling;
mod word;

ghost use Rattle.std.specs.Prelude.{◌≡◌, length};
ghost use Rattle.buffer.specs.Buffer.{Wrote, AppendedCapped};
ghost use Rattle.row.specs.Row.{row, row_after, bounded};

use lines::{add_first, add_lines, put_lines};

// The longest text that has a row, in bytes.
const LIMIT: usize = 4294967296;

// Writes a text's row after a name and its colon, which have `column` characters, to the front of out, as far as it fits; answers the length
// of the whole row. A text of more than 4 GiB counts as empty.
pub fn write_after(out: &mut [u8], column: usize, text: &[u8]) -> usize
    ensures { Wrote (row_after column (bounded text.now)) out.old out.new result }
{
    if out.len() == 0 {
        return row_length::len_after(column, text);
    }
    if LIMIT < text.len() {
        return 0;
    }
    let begun = add_first(out, column, text);
    let begin = begun.end;
    let start = begun.at;
    let r = put_lines(out, start, text, begin);
    let i = r.end;
    let at = r.at;
    add_lines(out, at, text, i)
}

// The same of a row that begins on a line of its own.
pub fn write(out: &mut [u8], text: &[u8]) -> usize
    ensures { Wrote (row (bounded text.now)) out.old out.new result }
{
    write_after(out, 63, text)
}

// The length of a text's row.
pub fn len(text: &[u8]) -> usize
    ensures { result ≡ length (row (bounded text.now)) }
{
    row_length::len(text)
}

// Writes a text's row after a name and its colon, which have `column` characters, from a place on, as far as it fits; answers the place
// after it, at most the greatest usize.
pub fn add_after(out: &mut [u8], at: usize, column: usize, text: &[u8]) -> usize
    ensures { AppendedCapped (row_after column (bounded text.now)) at out.old out.new result }
{
    let start = buffer::clip(at, out.len());
    buffer::place_after(at, write_after(&mut out[start..], column, text))
}

// The same of a row that begins on a line of its own.
pub fn add(out: &mut [u8], at: usize, text: &[u8]) -> usize
    ensures { AppendedCapped (row (bounded text.now)) at out.old out.new result }
{
    let start = buffer::clip(at, out.len());
    buffer::place_after(at, write(&mut out[start..], text))
}
