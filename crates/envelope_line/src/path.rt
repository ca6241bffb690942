// What stands before the parameters: the verb and the path.
ghost use Rattle.std.specs.Prelude.{◌≡◌, ◌+◌, min, drop};
ghost use Rattle.buffer.specs.Buffer.{greatest};
ghost use Rattle.address.specs.Address.{later};
ghost use Rattle.envelope_line.specs.EnvelopeLine.{verb_len, has_verb, path_scan, path_len, tail};

use letter_case::same_any_case;
use line::part;

// Where the path starts.
pub fn path_start(mail: bool) -> usize
    ensures { result ≡ verb_len mail }
{
    if mail { 11 } else { 9 }
}

// Whether a line starts with its verb, up to the `<`.
pub(crate) fn has_verb(line: &[u8], mail: bool) -> bool
    ensures { result ≡ has_verb mail line.now }
{
    if mail {
        return same_any_case(b"MAIL FROM:<", part(line, 0, 11));
    }
    same_any_case(b"RCPT TO:<", part(line, 0, 9))
}

// The path, by place in the line.
pub(crate) fn path(line: &[u8], mail: bool) -> Result<usize, usize>
    ensures { result ≡ later (verb_len mail) (path_scan mail (drop (verb_len mail) line.now)) }
{
    if mail {
        if line::byte_at(line, 11) == b'>' {
            return Ok(11);
        }
        return address::address(line, 11);
    }
    if same_any_case(b"Postmaster>", part(line, 9, 20)) {
        return Ok(19);
    }
    address::address(line, 9)
}

// Where the path ends.
pub(crate) fn path_end(line: &[u8], mail: bool) -> usize
    ensures { result ≡ verb_len mail + path_len mail line.now }
{
    match path(line, mail) {
        Ok(n) => n,
        Err(n) => n,
    }
}

// Where what follows the path and its `>` starts.
pub fn tail_start(line: &[u8], mail: bool) -> usize
    ensures { (result ≡ min (verb_len mail + path_len mail line.now + 1) greatest) × (drop result line.now ≡ tail mail line.now) }
{
    buffer::place_after(path_end(line, mail), 1)
}
