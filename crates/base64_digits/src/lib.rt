// Base64 with its padding (RFC 4648, section 4), written.
#![tactic(auto)]

ghost use Rattle.std.specs.Prelude.{◌≡◌, [], ◌∷◌, ◌+◌, ◌%◌, ◌≤◌, length};
ghost use Rattle.buffer.specs.Buffer.{Appended, AppendedCapped};
ghost use Rattle.base64_digits.specs.Base64.{digit64, in_base64, base64_length};
ghost use Rattle.base64_digits.specs.WritingLaws.{bits_of};

// The digits, by their values.
static DIGITS: [u8; 64] = *b"ABCDEFGHIJKLMNOPQRSTUVWXYZabcdefghijklmnopqrstuvwxyz0123456789+/";

// The digit of the last six of some bits.
fn digit(bits: usize) -> u8
    ensures { result ≡ digit64 (bits % 64) }
{
    DIGITS[bits % 64]
}

// The 24 bits of three bytes.
fn bits_of(a: u8, b: u8, c: u8) -> usize
    ensures { result ≡ bits_of a b c }
{
    usize::from(a) * 65536 + usize::from(b) * 256 + usize::from(c)
}

// Three bytes.
fn put_quad(out: &mut [u8], at: usize, a: u8, b: u8, c: u8) -> usize
    requires { at + 4 ≤ length out.old }
    ensures { Appended (in_base64 (a ∷ b ∷ c ∷ [])) at out.old out.new result }
{
    let bits = bits_of(a, b, c);
    let second = at + 1;
    let third = second + 1;
    let fourth = third + 1;
    out[at] = digit(bits / 262144);
    out[second] = digit(bits / 4096);
    out[third] = digit(bits / 64);
    out[fourth] = digit(bits);
    fourth + 1
}

// The last two bytes.
fn put_two(out: &mut [u8], at: usize, a: u8, b: u8) -> usize
    requires { at + 4 ≤ length out.old }
    ensures { Appended (in_base64 (a ∷ b ∷ [])) at out.old out.new result }
{
    let bits = bits_of(a, b, 0);
    let second = at + 1;
    let third = second + 1;
    let fourth = third + 1;
    out[at] = digit(bits / 262144);
    out[second] = digit(bits / 4096);
    out[third] = digit(bits / 64);
    out[fourth] = 61;
    fourth + 1
}

// The last byte.
fn put_one(out: &mut [u8], at: usize, a: u8) -> usize
    requires { at + 4 ≤ length out.old }
    ensures { Appended (in_base64 (a ∷ [])) at out.old out.new result }
{
    let bits = bits_of(a, 0, 0);
    let second = at + 1;
    let third = second + 1;
    let fourth = third + 1;
    out[at] = digit(bits / 262144);
    out[second] = digit(bits / 4096);
    out[third] = 61;
    out[fourth] = 61;
    fourth + 1
}

// Fifteen bytes, the third part of the most that an encoded word holds.
fn put_quads(out: &mut [u8], at: usize, bytes: &[u8; 15]) -> usize
    requires { at + 20 ≤ length out.old }
    ensures { Appended (in_base64 bytes.now) at out.old out.new result }
{
    let second = put_quad(out, at, bytes[0], bytes[1], bytes[2]);
    let third = put_quad(out, second, bytes[3], bytes[4], bytes[5]);
    let fourth = put_quad(out, third, bytes[6], bytes[7], bytes[8]);
    let fifth = put_quad(out, fourth, bytes[9], bytes[10], bytes[11]);
    put_quad(out, fifth, bytes[12], bytes[13], bytes[14])
}

// Bytes where there is room for their digits, group by group.
fn put_groups(out: &mut [u8], at: usize, bytes: &[u8]) -> usize
    requires { at + base64_length (length bytes.now) ≤ length out.old }
    ensures { Appended (in_base64 bytes.now) at out.old out.new result }
{
    let mut next = at;
    let mut rest = bytes;
    while let Some((group, more)) = rest.split_first_chunk::<3>() {
        next = put_quad(out, next, group[0], group[1], group[2]);
        rest = more;
    }
    if rest.len() == 2 {
        return put_two(out, next, rest[0], rest[1]);
    }
    if rest.len() == 1 {
        return put_one(out, next, rest[0]);
    }
    next
}

// The same, five groups at a time as long as there are as many.
fn put_roomy(out: &mut [u8], at: usize, bytes: &[u8]) -> usize
    requires { at + base64_length (length bytes.now) ≤ length out.old }
    ensures { Appended (in_base64 bytes.now) at out.old out.new result }
{
    let mut next = at;
    let mut rest = bytes;
    while let Some((five, more)) = rest.split_first_chunk::<15>() {
        next = put_quads(out, next, five);
        rest = more;
    }
    put_groups(out, next, rest)
}

// Bytes as far as their digits fit: each group of three is written beside the buffer, and then copied.
fn add_clipped(out: &mut [u8], at: usize, bytes: &[u8]) -> usize
    ensures { AppendedCapped (in_base64 bytes.now) at out.old out.new result }
{
    let mut group = [0u8; 4];
    let mut next = at;
    let mut rest = bytes;
    while 0 < rest.len() {
        let (part, more) = rest.split_at(rest.len().min(3));
        put_roomy(&mut group, 0, part);
        next = buffer::add_slice(out, next, &group);
        rest = more;
    }
    next
}

// Writes bytes in base64 from a place on, as far as they fit; answers the place after them.
pub fn add(out: &mut [u8], at: usize, bytes: &[u8]) -> usize
    ensures { AppendedCapped (in_base64 bytes.now) at out.old out.new result }
{
    if at <= out.len() {
        if bytes.len() <= (out.len() - at) / 4 * 3 {
            return put_roomy(out, at, bytes);
        }
    }
    add_clipped(out, at, bytes)
}
