// Domains.
ghost use Rattle.std.specs.Prelude.{◌≡◌, drop};
ghost use Rattle.address.specs.Address.{later, is_literal_byte, literal_from, domain_scan};

use crate::atom::dot_atom;
use byte_class::{Class, run_end};
use line::byte_at;

// The bytes of a domain literal.
struct LiteralByte;

impl Class for LiteralByte {
    ghost member = { is_literal_byte };

    #[tactic(auto, unfolding(crate::specs::Address::is_literal_byte))]
    fn holds(b: u8) -> bool {
        (33 <= b) & (b <= 90) | (94 <= b) & (b <= 126)
    }
}

// The rest of a domain literal, from after its `[`.
fn inside(s: &[u8], at: usize) -> Result<usize, usize>
    ensures { result ≡ later at (literal_from (drop at s.now)) }
{
    let e = run_end::<LiteralByte>(s, at);
    if byte_at(s, e) == b']' {
        return Ok(e + 1);
    }
    Err(e)
}

// The domain at a place.
pub fn domain(s: &[u8], at: usize) -> Result<usize, usize>
    ensures { result ≡ later at (domain_scan (drop at s.now)) }
{
    if byte_at(s, at) == b'[' {
        return inside(s, at + 1);
    }
    dot_atom(s, at)
}
