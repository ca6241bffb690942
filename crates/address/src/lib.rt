// Addresses and their parts, by position in a text. A scan answers Ok(n) where what it looks for ends at n, and Err(n) where there is
// none: the byte at n, or the end of the text, is where none can go on.
#![tactic(auto)]

pub mod atom;
pub mod domain;
pub mod quoted;

ghost use Rattle.std.specs.Prelude.{◌≡◌, drop};
ghost use Rattle.address.specs.Address.{later, byte_then, local_scan, domain_scan, address_scan, is_ascii_address};

use line::byte_at;

// The local part at a place.
fn local(s: &[u8], at: usize) -> Result<usize, usize>
    ensures { result ≡ later at (local_scan (drop at s.now)) }
{
    if byte_at(s, at) == b'"' {
        return quoted::quoted(s, at);
    }
    atom::dot_atom(s, at)
}

// The `@` and the domain at a place.
fn at_domain(s: &[u8], at: usize) -> Result<usize, usize>
    ensures { result ≡ later at (byte_then 64 domain_scan (drop at s.now)) }
{
    if byte_at(s, at) != b'@' {
        return Err(at);
    }
    domain::domain(s, at + 1)
}

// The address at a place.
pub fn address(s: &[u8], at: usize) -> Result<usize, usize>
    ensures { result ≡ later at (address_scan (drop at s.now)) }
{
    at_domain(s, local(s, at)?)
}

// Whether a whole text is an ASCII address.
pub fn is_ascii_address(s: &[u8]) -> bool
    ensures { result ≡ is_ascii_address s.now }
{
    match address(s, 0) {
        Ok(n) => (n == s.len()) & utf8::is_ascii(s),
        Err(_) => false,
    }
}
