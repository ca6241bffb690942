// The fields of a header section: a name line and its continuations each.
#![tactic(auto)]

ghost use Rattle.std.specs.Prelude.{◌≡◌, ◌+◌, ◌≤◌, ◌<◌, length, take, drop};
ghost use Rattle.lists.specs.Lists.{all};
ghost use Rattle.lists.specs.Byte.{is_ascii};
ghost use Rattle.header.specs.Fields.{field_len, value_of, line_count};
ghost use Rattle.header.specs.FieldLaws.{ends};
ghost use Rattle.header.specs.AsciiFields.{ascii_fields_end};
ghost use Rattle.header.specs.AsciiFieldsLaws.{LastEnd};

use header_line::name_len;
use line::is_blank;

// Whether the CRLF that ends a field stands at i.
fn ends_at(h: &[u8], i: usize) -> bool
    requires { i < length h.now }
    ensures { result ≡ ends (drop i h.now) }
{
    if h[i] != 13 {
        return false;
    }
    line::crlf_at(h, i) & !is_blank(line::byte_at(h, i + 2))
}

// The place after the field at `at`.
pub fn field_end(h: &[u8], at: usize) -> usize
    ensures { result ≡ at + field_len (drop at h.now) }
{
    let mut i = line::next_cr(h, at);
    while i < h.len() {
        if ends_at(h, i) {
            return i + 2;
        }
        i = line::next_cr(h, i + 1);
    }
    i
}

// The last place from `at` up to `to` where a field ends; `at` where there is none. From the end, since it is mostly near.
fn last_field_end(h: &[u8], at: usize, to: usize) -> usize
    requires { (at ≤ to) × (to ≤ length h.now) }
    ensures { LastEnd h.now at to result }
{
    for i in (at + 1..to).rev() {
        if ends_at(h, i - 1) {
            return i + 1;
        }
    }
    at
}

// The place after the fields from `at` on that are wholly ASCII, up to the first one that is not. They are passed over without a
// look at their names or values.
pub fn ascii_fields_end(h: &[u8], at: usize) -> usize
    ensures { result ≡ ascii_fields_end h.now at }
{
    let high = utf8::ascii_end(h, at);
    if h.len() <= high {
        return high;
    }
    last_field_end(h, at, high)
}

// The value of a field.
pub fn value(field: &[u8]) -> &[u8]
    ensures { result.now ≡ value_of field.now }
{
    let n = name_len(field);
    if field.len() < n + 3 {
        return line::part(field, 0, 0);
    }
    line::part(field, n + 1, field.len() - 2)
}

// Whether the value of a field is ASCII.
pub fn value_is_ascii(field: &[u8]) -> bool
    ensures { result ≡ all is_ascii (value_of field.now) }
{
    utf8::is_ascii(value(field))
}

// How many lines end in some bytes.
pub fn line_count(s: &[u8]) -> usize
    ensures { result ≡ line_count s.now }
{
    let mut n: usize = 0;
    for i in 0..s.len() {
        if line::crlf_at(s, i) {
            n += 1;
        }
    }
    n
}
