// Bytes of a value: its text, and how each is written.
ghost use Rattle.std.specs.Prelude.{◌≡◌, ◌*◌, ◌≤◌, length};
ghost use Rattle.buffer.specs.Buffer.{AppendedCapped};
ghost use Rattle.mime_parameter.specs.Extended.{is_token_byte, is_attribute_char, extended_byte, extended};
ghost use Rattle.mime_parameter.specs.Pieces.{stays_in_value, value_text};

use unquote::Stays;

// Whether a byte may stand in a token of RFC 2045.
pub fn is_token_byte(b: u8) -> bool
    ensures { result ≡ is_token_byte b }
{
    ((33 <= b) & (b <= 126))
        & !(((40 <= b) & (b <= 41))
            | ((58 <= b) & (b <= 64))
            | ((91 <= b) & (b <= 93))
            | (b == 34)
            | (b == 44)
            | (b == 47))
}

fn is_attribute_char(b: u8) -> bool
    ensures { result ≡ is_attribute_char b }
{
    is_token_byte(b) & !((b == 42) | (b == 39) | (b == 37))
}

// Without quoting, escapes and folds.
struct ValueText;

impl Stays for ValueText {
    ghost stays = { stays_in_value };

    fn holds(escaped: bool, b: u8) -> bool {
        (escaped | !((b == b'"') | (b == b'\\'))) & !((b == b'\r') | (b == b'\n'))
    }
}

// Writes the value of a parameter without quoting, escapes and folds from a place on, as far as it fits; answers the place after it.
pub fn add_value_text(out: &mut [u8], at: usize, standing: &[u8]) -> usize
    ensures { AppendedCapped (value_text standing.now) at out.old out.new result }
{
    unquote::add_kept_text::<ValueText>(out, at, standing)
}

fn byte_len(b: u8) -> usize
    ensures { (result ≡ length (extended_byte b)) × (result ≤ 3) }
{
    if is_attribute_char(b) { 1 } else { 3 }
}

// How many characters bytes take.
pub(crate) fn extended_len(text: &[u8]) -> usize
    requires { length text.now ≤ 32768 }
    ensures { result ≡ length (extended text.now) }
{
    let mut n = 0;
    for b in text {
        n += byte_len(*b);
    }
    n
}

fn add_extended_byte(out: &mut [u8], at: usize, b: u8) -> usize
    ensures { AppendedCapped (extended_byte b) at out.old out.new result }
{
    if is_attribute_char(b) {
        return buffer::add_byte(out, at, b);
    }
    let high = hex_digit::digit(b / 16);
    let low = hex_digit::digit(b % 16);
    buffer::add_slice(out, at, &[b'%', high, low])
}

pub(crate) fn add_extended(out: &mut [u8], at: usize, text: &[u8]) -> usize
    ensures { AppendedCapped (extended text.now) at out.old out.new result }
{
    let mut next = at;
    for b in text {
        next = add_extended_byte(out, next, *b);
    }
    next
}
