// FOR clauses.
ghost use Rattle.std.specs.Prelude.{◌≡◌, drop};
ghost use Rattle.lists.specs.Lists.{nonzero};
ghost use Rattle.received_token.specs.Clause.{is_for, angled_len, clause_len};

use structured_token::{White, is_white};

// Whether the word for stands at a place.
pub(crate) fn is_for(s: &[u8], at: usize) -> bool
    ensures { result ≡ is_for (drop at s.now) }
{
    let first = line::byte_at(s, at);
    if !((first == b'f') | (first == b'F')) {
        return false;
    }
    is_for_there(&s[at..])
}

fn is_for_there(s: &[u8]) -> bool
    ensures { result ≡ is_for s.now }
{
    let after = line::byte_at(s, 3);
    letter_case::same_any_case(line::part(s, 0, 3), b"for") & (is_white(after) | (after == b'<'))
}

// How long the address in angle brackets is at the front.
fn angled_len(s: &[u8]) -> Option<usize>
    ensures { result ≡ nonzero (angled_len s.now) }
{
    if line::byte_at(s, 0) != b'<' {
        return None;
    }
    match address::address(s, 1) {
        Ok(n) => {
            if line::byte_at(s, n) == b'>' {
                Some(n + 1)
            } else {
                None
            }
        }
        Err(_) => None,
    }
}

// How long the clause is at the front. The word and the byte after it are 4 bytes.
pub(crate) fn clause_len(s: &[u8]) -> Option<usize>
    ensures { result ≡ nonzero (clause_len s.now) }
{
    if s.len() < 4 {
        return None;
    }
    let white = byte_class::run_end::<White>(s, 0);
    let word = &s[white..];
    if !is_for_there(word) {
        return None;
    }
    let more = &word[3..];
    let blanks = byte_class::run_end::<White>(more, 0);
    let n = angled_len(&more[blanks..])?;
    Some(white + 3 + blanks + n)
}
