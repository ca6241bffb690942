// What is written for a line.
ghost use Rattle.std.specs.Prelude.{[], ◌∷◌, ◌++◌, drop};
ghost use Rattle.buffer.specs.Buffer.{AppendedCapped};
ghost use Rattle.xtext.specs.Xtext.{decoded};
ghost use Rattle.envelope_line.specs.EnvelopeLine.{without_alt, written_line, replacement};
ghost use Rattle.parameter.specs.Parameter.{params, value, alt};

use crate::path::{path_end, path_start, tail_start};
use line::part;
use parameter::{alt_place, param_end, value_start};

// Writes a parameter's value, decoded.
fn add_decoded(out: &mut [u8], at: usize, p: &[u8]) -> usize
    ensures { AppendedCapped (decoded (value p.now)) at out.old out.new result }
{
    let a = buffer::clip(at, out.len());
    let v = part(p, value_start(p), p.len());
    buffer::place_after(at, xtext::put_decoded(&mut out[a..], v))
}

// Writes the decoded ALT-ADDRESS of the rest of a line from a place on.
fn add_new_path(out: &mut [u8], at: usize, line: &[u8], from: usize) -> usize
    ensures { AppendedCapped (decoded (value (alt (params (drop from line.now))))) at out.old out.new result }
{
    let Some(place) = alt_place(line, from) else {
        return at;
    };
    let start = place + 1;
    add_decoded(out, at, part(line, start, param_end(line, start)))
}

// Writes the rest of a line from a place on without its ALT-ADDRESS.
fn add_without_alt(out: &mut [u8], at: usize, line: &[u8], from: usize) -> usize
    ensures { AppendedCapped (without_alt (drop from line.now)) at out.old out.new result }
{
    let Some(place) = alt_place(line, from) else {
        return buffer::add_slice(out, at, part(line, from, line.len()));
    };
    let next = buffer::add_slice(out, at, part(line, from, place));
    buffer::add_slice(
        out,
        next,
        part(line, param_end(line, place + 1), line.len()),
    )
}

// Writes a line, its path replaced where that is not ASCII.
fn add_text(out: &mut [u8], at: usize, line: &[u8], mail: bool) -> usize
    ensures { AppendedCapped (written_line mail line.now) at out.old out.new result }
{
    let start = path_start(mail);
    if utf8::is_ascii(part(line, start, path_end(line, mail))) {
        return buffer::add_slice(out, at, line);
    }
    let rest = tail_start(line, mail);
    let a = buffer::add_slice(out, at, part(line, 0, start));
    let b = add_new_path(out, a, line, rest);
    let c = buffer::add_byte(out, b, b'>');
    add_without_alt(out, c, line, rest)
}

// Writes a line, its path replaced where that is not ASCII, and CRLF from a place on, as far as they fit; answers the place after.
pub fn add_line(out: &mut [u8], at: usize, line: &[u8], mail: bool) -> usize
    ensures { AppendedCapped (written_line mail line.now ++ (13 ∷ 10 ∷ [])) at out.old out.new result }
{
    let next = add_text(out, at, line, mail);
    buffer::add_slice(out, next, b"\r\n")
}

// Writes `<old <new>>` where the path is replaced, and nothing where not.
pub fn add_replacement(out: &mut [u8], at: usize, line: &[u8], mail: bool) -> usize
    ensures { AppendedCapped (replacement mail line.now) at out.old out.new result }
{
    let start = path_start(mail);
    let end = path_end(line, mail);
    let old = part(line, start, end);
    if utf8::is_ascii(old) {
        return at;
    }
    let rest = tail_start(line, mail);
    let a = buffer::add_byte(out, at, b'<');
    let b = buffer::add_slice(out, a, old);
    let c = buffer::add_slice(out, b, b" <");
    let d = add_new_path(out, c, line, rest);
    buffer::add_slice(out, d, b">>")
}
