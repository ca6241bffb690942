// A text in Q: `_` adds the space, `=` and two hex digits a byte, any other byte itself.
ghost use Rattle.std.specs.Prelude.{◌≡◌, ◌<◌, length, is_some};
ghost use Rattle.std.specs.Option.{unwrap_or};
ghost use Rattle.buffer.specs.Buffer.{AppendedCapped};
ghost use Rattle.word_reader.specs.Word.{is_any_hex, any_hex, q_text, q_ok};
ghost use Rattle.word_reader.specs.WordLaws.{UnitAt};

use crate::Added;

// The value of a hex digit in any case.
#[tactic(auto, unfolding(crate::specs::Word::is_any_hex, crate::specs::Word::any_hex))]
fn hex_value(b: u8) -> Option<u8>
    ensures digit { is_some result ≡ is_any_hex b }
    ensures value { unwrap_or result 0 ≡ any_hex b }
    ensures small { unwrap_or result 0 < 16 }
{
    match b {
        b'0'..=b'9' => Some(b - b'0'),
        b'A'..=b'F' => Some(b - b'A' + 10),
        b'a'..=b'f' => Some(b - b'a' + 10),
        _ => None,
    }
}

// A unit: the byte that it adds, whether it is no fault, and its size.
// Kept: a unit with a fault adds its byte too, so that all three are read whatever the flag says.
#[derive(Clone, Copy)]
struct Unit {
    byte: u8,
    ok: bool,
    size: usize,
}

fn unit_at(s: &[u8], i: usize) -> Unit
    requires { i < length s.now }
    ensures { UnitAt s.now i result.byte result.ok result.size }
{
    let b = s[i];
    if b == 61 {
        let first = hex_value(line::byte_at(s, i + 1));
        let second = hex_value(line::byte_at(s, i + 2));
        return Unit {
            byte: first.unwrap_or(0) * 16 + second.unwrap_or(0),
            ok: first.is_some() & second.is_some(),
            size: 3,
        };
    }
    if b == 95 {
        return Unit {
            byte: 32,
            ok: true,
            size: 1,
        };
    }
    Unit {
        byte: b,
        ok: (33 <= b) & (b <= 126) & !(b == 63),
        size: 1,
    }
}

pub(crate) fn add(out: &mut [u8], at: usize, s: &[u8]) -> Added
    ensures { (result.ok ≡ q_ok s.now) × AppendedCapped (q_text s.now) at out.old out.new result.next }
{
    let mut ok = true;
    let mut next = at;
    let mut i: usize = 0;
    while i < s.len() {
        let u = unit_at(s, i);
        ok = ok & u.ok;
        next = buffer::add_byte(out, next, u.byte);
        i += u.size;
    }
    Added { ok, next }
}
