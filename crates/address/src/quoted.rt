// Quoted strings.
ghost use Rattle.std.specs.Prelude.{◌≡◌, false, drop};
ghost use Rattle.address.specs.Address.{later, quoted_from, quoted_scan};

use line::byte_at;

// The rest of a quoted string, from after its opening quote.
fn inside(s: &[u8], at: usize) -> Result<usize, usize>
    ensures { result ≡ later at (quoted_from false (drop at s.now)) }
{
    if s.len() <= at {
        return Err(at);
    }
    let mut escaped = false;
    for i in at..s.len() {
        let b = s[i];
        if (b == b'"') & !escaped {
            return Ok(i + 1);
        }
        if !((32 <= b) & (b <= 126) | (128 <= b) & !escaped) {
            return Err(i);
        }
        escaped = (b == b'\\') & !escaped;
    }
    Err(s.len())
}

// The quoted string at a place.
pub fn quoted(s: &[u8], at: usize) -> Result<usize, usize>
    ensures { result ≡ later at (quoted_scan (drop at s.now)) }
{
    if byte_at(s, at) != b'"' {
        return Err(at);
    }
    inside(s, at + 1)
}
