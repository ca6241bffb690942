// Text without quoting and escapes.
#![tactic(auto)]

ghost use Rattle.std.specs.Prelude.{◌≡◌, Bool, ℕ, false, cond, [], ◌∷◌};
ghost use Rattle.buffer.specs.Buffer.{AppendedCapped};
ghost use Rattle.unquote.specs.Unquote.{escapes, kept_from, stays_unquoted, unquoted};

// Whether a byte escapes the next.
pub fn escapes(escaped: bool, b: u8) -> bool
    ensures { result ≡ escapes escaped b }
{
    !escaped & (b == b'\\')
}

// Writes a byte at a place where it stays.
pub fn add_kept(out: &mut [u8], at: usize, stays: bool, b: u8) -> usize
    ensures { AppendedCapped (cond stays (b ∷ []) []) at out.old out.new result }
{
    if !stays {
        return at;
    }
    buffer::add_byte(out, at, b)
}

// Which bytes of a text stay, by a test of a byte and of whether it is escaped.
pub trait Stays {
    ghost stays: { Bool → ℕ → Bool };

    fn holds(escaped: bool, b: u8) -> bool
        ensures { result ≡ stays escaped b };
}

// Writes the bytes of a text that stay from a place on, as far as they fit; answers the place after them.
pub fn add_kept_text<S: Stays>(out: &mut [u8], at: usize, text: &[u8]) -> usize
    ensures { AppendedCapped (kept_from S.stays false text.now) at out.old out.new result }
{
    let mut next = at;
    let mut escaped = false;
    for b in text {
        next = add_kept(out, next, S::holds(escaped, *b), *b);
        escaped = escapes(escaped, *b);
    }
    next
}

// Without quoting and escapes.
struct Unquoted;

impl Stays for Unquoted {
    ghost stays = { stays_unquoted };

    fn holds(escaped: bool, b: u8) -> bool {
        escaped | !((b == b'"') | (b == b'\\'))
    }
}

// Writes a text without quoting and escapes from a place on, as far as it fits; answers the place after it.
pub fn add_unquoted(out: &mut [u8], at: usize, text: &[u8]) -> usize
    ensures { AppendedCapped (unquoted text.now) at out.old out.new result }
{
    add_kept_text::<Unquoted>(out, at, text)
}
