// xtext, and the address that an ALT-ADDRESS value stands for.
#![tactic(auto)]

ghost use Rattle.std.specs.Prelude.{◌≡◌, ◌<◌, length, is_ok};
ghost use Rattle.buffer.specs.Buffer.{Wrote};
ghost use Rattle.xtext.specs.Xtext.{is_xchar, is_xtext, decoded, is_alt_address};
ghost use Rattle.xtext.specs.XtextLaws.{UnitFound, size_of};

use address::is_ascii_address;

// The longest line of an envelope, in bytes, and so the longest value.
const LIMIT: usize = 998;

// Whether a byte of xtext stands for itself.
fn is_xchar(b: u8) -> bool
    ensures { result ≡ is_xchar b }
{
    (33 <= b) & (b <= 126) & !(b == b'+') & !(b == b'=')
}

// An xchar or a hexchar: its length, and the byte that it stands for.
#[derive(Clone, Copy, Debug, PartialEq, Eq)]
struct EncodedByte {
    size: usize,
    byte: u8,
}

// The xchar or hexchar at a place.
fn unit_at(s: &[u8], at: usize) -> Option<EncodedByte>
    requires { at < length s.now }
    ensures { UnitFound s.now at result }
{
    let b = s[at];
    if is_xchar(b) {
        return Some(EncodedByte { size: 1, byte: b });
    }
    if s.len() - at < 3 {
        return None;
    }
    let high = hex_digit::value(s[at + 1]);
    let low = hex_digit::value(s[at + 2]);
    if !((b == b'+') & (high < 16) & (low < 16)) {
        return None;
    }
    Some(EncodedByte {
        size: 3,
        byte: high * 16 + low,
    })
}

// Writes the decoded bytes of a value to the front of out, as far as they fit. Answers how many they are: of xtext as Ok, of another
// text, up to its fault, as Err.
fn decode(out: &mut [u8], value: &[u8]) -> Result<usize, usize>
    ensures { Wrote (decoded value.now) out.old out.new (size_of result) × (is_ok result ≡ is_xtext value.now) }
{
    let mut n: usize = 0;
    let mut i = 0;
    while i < value.len() {
        let Some(unit) = unit_at(value, i) else {
            return Err(n);
        };
        n = buffer::add_byte(out, n, unit.byte);
        i += unit.size;
    }
    Ok(n)
}

// Writes the decoded bytes of a value to the front of out, as far as they fit; answers how many they are. What is not xtext is
// decoded up to its fault.
pub fn put_decoded(out: &mut [u8], value: &[u8]) -> usize
    ensures { Wrote (decoded value.now) out.old out.new result }
{
    match decode(out, value) {
        Ok(n) | Err(n) => n,
    }
}

// Whether a value is xtext of an ASCII address. The decoded bytes are tested.
pub fn is_alt_address(value: &[u8]) -> bool
    ensures { result ≡ is_alt_address value.now }
{
    if LIMIT < value.len() {
        return false;
    }
    let mut bytes = [0u8; LIMIT];
    let Ok(n) = decode(&mut bytes, value) else {
        return false;
    };
    is_ascii_address(&bytes[..n])
}
