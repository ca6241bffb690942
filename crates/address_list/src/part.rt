// The parts of an address field's text.
ghost use Rattle.std.specs.Prelude.{◌≡◌, ◌+◌, ◌≤◌, ◌<◌, length, unwrap_or};
ghost use Rattle.address_list.specs.Parts.{alternative_at, angled_at, comment_at, named_at, part_at, stray, Took, TookFrom};

use crate::{Front, PartKind};
use comment::{comment_end, parts_fit};
use line::{blanks_end, byte_at};
use phrase::{address_len, phrase_len};
use rules::Rules;

const STRAY: Front = Front {
    kind: PartKind::Stray,
    size: 1,
};

// `<address <alternative>>` at the front: its first address is from a to b.
fn alternative(t: &[u8], a: usize, b: usize) -> Option<Front>
    requires { (a ≤ b) × ((b ≤ length t.now) × (0 < length t.now)) }
    ensures { Took (alternative_at t.now a b) t.now (unwrap_or result stray) }
{
    let inner = blanks_end(t, b);
    if inner == b {
        return None;
    }
    if utf8::is_ascii(&t[a..b]) {
        return None;
    }
    if byte_at(t, inner) != b'<' {
        return None;
    }
    let start = blanks_end(t, inner + 1);
    let size = address_len(t, start)?;
    let end = start + size;
    if byte_at(t, end) != b'>' {
        return None;
    }
    if byte_at(t, end + 1) != b'>' {
        return None;
    }
    if !utf8::is_ascii(&t[start..end]) {
        return None;
    }
    let kind = PartKind::Alternative(start, size);
    let size = end + 2;
    Some(Front { kind, size })
}

// `<address>` at the front, or with an alternative where the rules allow it.
fn angled(t: &[u8], rules: Rules) -> Option<Front>
    requires { 0 < length t.now }
    ensures { Took (angled_at rules t.now) t.now (unwrap_or result stray) }
{
    let start = blanks_end(t, 1);
    let size = address_len(t, start)?;
    let end = start + size;
    if byte_at(t, end) == b'>' {
        let kind = PartKind::Angled(start, size);
        let size = end + 1;
        return Some(Front { kind, size });
    }
    if !rules::allows_alternative(rules) {
        return None;
    }
    alternative(t, start, end)
}

// The comment at the front, where it is closed and no run of it is too long.
fn commented(t: &[u8]) -> Option<Front>
    requires { 0 < length t.now }
    ensures { Took (comment_at t.now) t.now (unwrap_or result stray) }
{
    let size = comment_end(t, 0)?;
    if !parts_fit(&t[..size]) {
        return None;
    }
    let kind = PartKind::Comment;
    Some(Front { kind, size })
}

// A bare address at the front, or else a phrase.
fn named(t: &[u8]) -> Option<Front>
    requires { 0 < length t.now }
    ensures { Took (named_at t.now) t.now (unwrap_or result stray) }
{
    if let Some(size) = address_len(t, 0) {
        let kind = PartKind::Address;
        return Some(Front { kind, size });
    }
    let size = phrase_len(t)?;
    let kind = PartKind::Phrase;
    Some(Front { kind, size })
}

// A part of one byte.
fn mark(kind: PartKind) -> Option<Front>
    ensures { result ≡ Some (record { kind = kind; size = 1 }) }
{
    Some(Front { kind, size: 1 })
}

// The part at the front.
fn part_at(t: &[u8], rules: Rules) -> Option<Front>
    requires { 0 < length t.now }
    ensures { Took (part_at rules t.now) t.now (unwrap_or result stray) }
{
    let first = t[0];
    if line::is_blank(first) {
        return mark(PartKind::Blank);
    }
    match first {
        b',' => mark(PartKind::Comma),
        b':' => mark(PartKind::Colon),
        b';' => mark(PartKind::Semicolon),
        b'<' => angled(t, rules),
        b'(' => commented(t),
        _ => named(t),
    }
}

// The part at a place of a text; past its end a stray byte.
pub fn part_from(s: &[u8], at: usize, rules: Rules) -> Front
    ensures { TookFrom rules s.now at result }
{
    if s.len() <= at {
        return STRAY;
    }
    part_at(&s[at..], rules).unwrap_or(STRAY)
}
