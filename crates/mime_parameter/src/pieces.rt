// The pieces of a value: alone, or in numbered parts.
ghost use Rattle.std.specs.Prelude.{◌≡◌, List, [], ◌∷◌, ◌++◌, ◌≤◌, ◌<◌, length};
ghost use Rattle.buffer.specs.Buffer.{AppendedCapped};
ghost use Rattle.mime_parameter.specs.Pieces.{alone_piece, part_piece, line_fits, has_room, limited, parameter_lines};
ghost use Rattle.mime_parameter.specs.PartLaws.{mark_of, PartEnd, parts_laid, parts_fit};

use crate::bytes::{add_extended, extended_len};
use crate::label::{add_alone_label, add_part_label, part_label_len};

// Where part k ends that starts at a place of a text: it takes as many characters as its line holds, and one at least.
fn part_end(name: &[u8], k: usize, text: &[u8], at: usize) -> usize
    requires { (length name.now ≤ 32768) × (length text.now ≤ 32768) × (k ≤ 32768) × (at < length text.now) }
    ensures { PartEnd name.now k text.now at result }
{
    let label = part_label_len(name, k);
    let first = word_spelling::char_end(text, at);
    let mut used = label + extended_len(&text[at..first]);
    let mut i = first;
    while i < text.len() {
        let end = word_spelling::char_end(text, i);
        let more = used + extended_len(&text[i..end]);
        if 74 < more {
            return i;
        }
        used = more;
        i = end;
    }
    i
}

// CRLF and a space, after a `;` where it is not the first piece.
fn add_break(out: &mut [u8], at: usize, k: usize) -> usize
    ensures { AppendedCapped (mark_of k ++ (13 ∷ 10 ∷ 32 ∷ [])) at out.old out.new result }
{
    if k == 0 {
        return buffer::add_slice(out, at, b"\r\n ");
    }
    buffer::add_slice(out, at, b";\r\n ")
}

// Part k on its line.
fn add_part(out: &mut [u8], at: usize, name: &[u8], k: usize, bytes: &[u8]) -> usize
    ensures { AppendedCapped ((mark_of k ++ (13 ∷ 10 ∷ 32 ∷ [])) ++ part_piece name.now k bytes.now) at out.old out.new result }
{
    let label = add_break(out, at, k);
    let value = add_part_label(out, label, name, k);
    add_extended(out, value, bytes)
}

fn add_parts(out: &mut [u8], at: usize, name: &[u8], text: &[u8]) -> usize
    requires { (length name.now ≤ 32768) × (length text.now ≤ 32768) }
    ensures { AppendedCapped (parts_laid name.now 0 text.now) at out.old out.new result }
{
    let mut next = at;
    let mut k = 0;
    let mut i = 0;
    while i < text.len() {
        let end = part_end(name, k, text, i);
        next = add_part(out, next, name, k, &text[i..end]);
        k += 1;
        i = end;
    }
    next
}

// Whether every part fits its line.
fn parts_fit(name: &[u8], text: &[u8]) -> bool
    requires { (length name.now ≤ 32768) × (length text.now ≤ 32768) }
    ensures { result ≡ parts_fit name.now 0 text.now }
{
    let mut k = 0;
    let mut i = 0;
    while i < text.len() {
        let end = part_end(name, k, text, i);
        if 74 < part_label_len(name, k) + extended_len(&text[i..end]) {
            return false;
        }
        k += 1;
        i = end;
    }
    true
}

// Whether a value fits a single line.
fn fits_alone(name: &[u8], text: &[u8]) -> bool
    requires { (length name.now ≤ 32768) × (length text.now ≤ 32768) }
    ensures { result ≡ line_fits (alone_piece name.now text.now) }
{
    name.len() + 9 + extended_len(text) <= 74
}

// A value alone on its line.
fn add_alone(out: &mut [u8], at: usize, name: &[u8], text: &[u8]) -> usize
    ensures { AppendedCapped (13 ∷ 10 ∷ 32 ∷ alone_piece name.now text.now) at out.old out.new result }
{
    let label = buffer::add_slice(out, at, b"\r\n ");
    let value = add_alone_label(out, label, name);
    add_extended(out, value, text)
}

fn add_limited(out: &mut [u8], at: usize, name: &[u8], text: &[u8]) -> usize
    requires { (length name.now ≤ 32768) × (length text.now ≤ 32768) }
    ensures { AppendedCapped (parameter_lines name.now text.now) at out.old out.new result }
{
    if fits_alone(name, text) {
        return add_alone(out, at, name, text);
    }
    add_parts(out, at, name, text)
}

fn limited_room(name: &[u8], text: &[u8]) -> bool
    requires { (length name.now ≤ 32768) × (length text.now ≤ 32768) }
    ensures { result ≡ has_room name.now text.now }
{
    if fits_alone(name, text) {
        return true;
    }
    parts_fit(name, text)
}

// A text of at most 32,768 bytes; a longer one counts as empty.
fn limited(text: &[u8]) -> &[u8]
    ensures { (result.now ≡ limited text.now) × (length result.now ≤ 32768) }
{
    if text.len() <= 32768 {
        text
    } else {
        &text[..0]
    }
}

// Writes the pieces of a parameter, each on its own line, from a place on, as far as they fit; answers the place after them. The value is
// its text without quoting, escapes and folds. A name or a value of more than 32,768 bytes counts as empty.
pub fn add_parameter(out: &mut [u8], at: usize, name: &[u8], text: &[u8]) -> usize
    ensures { AppendedCapped (parameter_lines (limited name.now) (limited text.now)) at out.old out.new result }
{
    add_limited(out, at, limited(name), limited(text))
}

// Whether a name leaves room for every character of a value.
pub fn has_room(name: &[u8], text: &[u8]) -> bool
    ensures { result ≡ has_room (limited name.now) (limited text.now) }
{
    limited_room(limited(name), limited(text))
}
