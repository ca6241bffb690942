// What is written for the fields of a header.
ghost use Rattle.std.specs.Prelude.{◌*◌, ◌≡◌, ◌≤◌, length};
ghost use Rattle.buffer.specs.Buffer.{AppendedCapped};
ghost use Rattle.encoded_word.specs.Segments.{rendered};
ghost use Rattle.outgoing_field.specs.Fate.{comments_or_encapsulated, method_written, field_written, header_written, limited};
ghost use Rattle.outgoing_field.specs.FateLaws.{needs_scratch, CommentsGiven, Served, Roomy};

use crate::limited;
use field_method::Method;
use field_text::TextPlace;
use rules::Rules;

// Comments encoded, or the text encapsulated where non-ASCII stands outside them.
fn add_comments_or_encapsulated(
    out: &mut [u8],
    at: usize,
    name: &[u8],
    value: &[u8],
    text: &[u8],
    scratch: &mut [u8],
) -> usize
    requires { CommentsGiven value.now text.now scratch.old }
    ensures { AppendedCapped (rendered (comments_or_encapsulated name.now value.now text.now)) at out.old out.new result }
{
    if structured_field::ascii_outside_comments(value) {
        return structured_field::add_field(out, at, name, value, scratch);
    }
    field::add_encoded(out, at, name, text, true)
}

// A field by the method for it and its text. Address fields, Received fields and those with comments or parameters need a scratch.
fn add_by_method(
    out: &mut [u8],
    at: usize,
    rules: Rules,
    method: Method,
    field: &[u8],
    text: &[u8],
    scratch: &mut [u8],
) -> usize
    requires { Served method field.now text.now scratch.old }
    ensures { AppendedCapped (rendered (method_written rules method field.now)) at out.old out.new result }
{
    let n = header_line::name_len(field);
    let name = &field[..n];
    match method {
        Method::Pieces => address_pieces::add_field(out, at, rules, name, text, scratch),
        Method::PlainText => field::add_encoded(out, at, name, text, false),
        Method::Encapsulated => field::add_encoded(out, at, name, text, true),
        Method::Received => received::add_field(out, at, name, header::value(field), scratch),
        Method::CommentsOrHeld => structured_field::add_field(
            out,
            at,
            name,
            header::value(field),
            scratch,
        ),
        Method::CommentsOrEncapsulated => add_comments_or_encapsulated(
            out,
            at,
            name,
            header::value(field),
            text,
            scratch,
        ),
        Method::Parameters => parameterized_field::add_field(
            out,
            at,
            name,
            header::value(field),
            scratch,
        ),
        Method::Held => at,
    }
}

// A field, its text read in place, or made in a buffer of its own where it has a fold.
fn add_with(
    out: &mut [u8],
    at: usize,
    rules: Rules,
    method: Method,
    field: &[u8],
    made: &mut [u8],
    scratch: &mut [u8],
) -> usize
    requires { Roomy field.now made.old scratch.old }
    ensures { AppendedCapped (rendered (method_written rules method field.now)) at out.old out.new result }
{
    match field_text::place(field) {
        Some(TextPlace { from, to }) => {
            add_by_method(
                out,
                at,
                rules,
                method,
                field,
                line::part(field, from, to),
                scratch,
            )
        }
        None => {
            let size = field_text::put(made, field);
            add_by_method(out, at, rules, method, field, &made[..size], scratch)
        }
    }
}

// A field, its text and its scratch made in buffers of so many bytes: small ones take less time to clear.
fn add_made<const TEXT: usize, const SCRATCH: usize>(
    out: &mut [u8],
    at: usize,
    rules: Rules,
    method: Method,
    field: &[u8],
) -> usize
    requires { (length field.now ≤ 32768) × (length field.now ≤ TEXT) × (2 * TEXT ≤ SCRATCH) × (SCRATCH ≤ 65536) }
    ensures { AppendedCapped (rendered (method_written rules method field.now)) at out.old out.new result }
{
    let mut made = [0u8; TEXT];
    let mut scratch = [0u8; SCRATCH];
    add_with(out, at, rules, method, field, &mut made, &mut scratch)
}

// Whether a method needs a scratch besides the field's text.
#[tactic(auto, unfolding(crate::specs::FateLaws::needs_scratch))]
fn needs_scratch(method: Method) -> bool
    ensures { result ≡ needs_scratch method }
{
    !matches!(
        method,
        Method::PlainText | Method::Encapsulated | Method::Held
    )
}

// A field whose value is not ASCII. Most texts that are encoded whole have no fold, and need no buffer.
fn add_non_ascii(out: &mut [u8], at: usize, rules: Rules, method: Method, field: &[u8]) -> usize
    requires { length field.now ≤ 32768 }
    ensures { AppendedCapped (rendered (method_written rules method field.now)) at out.old out.new result }
{
    if !needs_scratch(method) {
        if let Some(TextPlace { from, to }) = field_text::place(field) {
            let mut none = [0u8; 0];
            return add_by_method(
                out,
                at,
                rules,
                method,
                field,
                line::part(field, from, to),
                &mut none,
            );
        }
    }
    if field.len() <= 1024 {
        return add_made::<1024, 2048>(out, at, rules, method, field);
    }
    add_made::<32768, 65536>(out, at, rules, method, field)
}

fn add_limited(out: &mut [u8], at: usize, rules: Rules, field: &[u8]) -> usize
    requires { length field.now ≤ 32768 }
    ensures { AppendedCapped (rendered (field_written rules field.now)) at out.old out.new result }
{
    if header::value_is_ascii(field) {
        return buffer::add_slice(out, at, field);
    }
    let n = header_line::name_len(field);
    let kind = header_name::kind_of(&field[..n]);
    add_non_ascii(out, at, rules, field_method::method_of(rules, kind), field)
}

// Writes what becomes of a field that is not held from a place on, as far as it fits; answers the place after it. A field whose value is
// ASCII is copied; names are looked up only where it is not. A field of more than 32,768 bytes counts as empty.
pub fn add_field(out: &mut [u8], at: usize, rules: Rules, field: &[u8]) -> usize
    ensures { AppendedCapped (rendered (field_written rules (limited field.now))) at out.old out.new result }
{
    add_limited(out, at, rules, limited(field))
}

fn add_all(out: &mut [u8], at: usize, rules: Rules, h: &[u8]) -> usize
    requires { length h.now ≤ 32768 }
    ensures { AppendedCapped (rendered (header_written rules h.now)) at out.old out.new result }
{
    let mut next = at;
    let mut i: usize = 0;
    while i < h.len() {
        let start = header::ascii_fields_end(h, i);
        next = buffer::add_slice(out, next, &h[i..start]);
        if h.len() <= start {
            return next;
        }
        let to = header::field_end(h, start);
        next = add_limited(out, next, rules, &h[start..to]);
        i = to;
    }
    next
}

// Writes what becomes of the fields of a header, none of which is held, from a place on, as far as it fits; answers the place after all of
// it. Fields that are wholly ASCII are copied together. A header of more than 32,768 bytes counts as empty.
pub fn add_fields(out: &mut [u8], at: usize, rules: Rules, h: &[u8]) -> usize
    ensures { AppendedCapped (rendered (header_written rules (limited h.now))) at out.old out.new result }
{
    add_all(out, at, rules, limited(h))
}
