// Held fields.
ghost use Rattle.std.specs.Prelude.{◌≡◌, ◌≤◌, length};
ghost use Rattle.outgoing_field.specs.Fate.{holds, limited};
ghost use Rattle.outgoing_field.specs.Most.{method_most, LooksAs, Looked};

use crate::{HeldField, limited};
use field_method::Method;
use rules::Rules;

// Whether a field is held where its value is not ASCII, by the method for it.
#[tactic(auto, unfolding(crate::specs::Fate::holds))]
fn holds(method: Method, field: &[u8]) -> bool
    requires { length field.now ≤ 32768 }
    ensures { result ≡ holds method field.now }
{
    match method {
        Method::Pieces
        | Method::PlainText
        | Method::Encapsulated
        | Method::CommentsOrEncapsulated => false,
        Method::Received => {
            let n = header_line::name_len(field);
            !received::passes(&field[..n], header::value(field))
        }
        Method::CommentsOrHeld => !structured_field::ascii_outside_comments(header::value(field)),
        Method::Parameters => !parameterized_field::passes(header::value(field)),
        Method::Held => true,
    }
}

// The most that is written for a field of n bytes whose value is not ASCII.
#[tactic(auto, unfolding(crate::specs::Most::method_most))]
fn method_most(method: Method, n: usize) -> usize
    requires { n ≤ 32768 }
    ensures { result ≡ method_most method n }
{
    match method {
        Method::Parameters => 80 * n,
        _ => 30 * n,
    }
}

// The most that is written for a field, unless it is held. Names are looked up only where the value is not ASCII.
fn look(rules: Rules, field: &[u8]) -> Option<usize>
    requires { length field.now ≤ 32768 }
    ensures { LooksAs rules field.now result }
{
    if header::value_is_ascii(field) {
        return Some(30 * field.len());
    }
    let n = header_line::name_len(field);
    let kind = header_name::kind_of(&field[..n]);
    let method = field_method::method_of(rules, kind);
    if holds(method, field) {
        return None;
    }
    Some(method_most(method, field.len()))
}

// Fields that are wholly ASCII are passed over together.
fn look_through(rules: Rules, h: &[u8]) -> Result<usize, HeldField>
    requires { length h.now ≤ 32768 }
    ensures { Looked rules h.now result }
{
    let mut most: usize = 0;
    let mut at: usize = 0;
    while at < h.len() {
        let start = header::ascii_fields_end(h, at);
        most += 30 * (start - at);
        if h.len() <= start {
            return Ok(most);
        }
        let to = header::field_end(h, start);
        match look(rules, &h[start..to]) {
            Some(n) => most += n,
            None => {
                return Err(HeldField {
                    line: header::line_count(&h[0..start]),
                    at: start,
                });
            }
        }
        at = to;
    }
    Ok(most)
}

// The most that is written for a header, or its first held field. A header of more than 32,768 bytes counts as empty.
pub fn first_held(rules: Rules, h: &[u8]) -> Result<usize, HeldField>
    ensures { Looked rules (limited h.now) result }
{
    look_through(rules, limited(h))
}
