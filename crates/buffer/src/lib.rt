// Writers into the rest of an output buffer. A text that does not fit is clipped, and its whole length is answered, so that
// measuring is writing into an empty buffer.
#![tactic(auto)]

ghost use Rattle.std.specs.Prelude.{◌≡◌, [], ◌∷◌, min, ◌+◌};
ghost use Rattle.buffer.specs.Buffer.{Wrote, AppendedCapped, greatest};

// The lesser of two numbers: a place clipped to a buffer's length.
pub fn clip(n: usize, m: usize) -> usize
    ensures { result ≡ min n m }
{
    n.min(m)
}

// The place n bytes after a place, at most the greatest usize.
pub fn place_after(at: usize, n: usize) -> usize
    ensures { result ≡ min (at + n) greatest }
{
    at.saturating_add(n)
}

// Writes a byte to the front of out, where it fits; answers 1.
pub fn put_byte(out: &mut [u8], b: u8) -> usize
    ensures { Wrote (b ∷ []) out.old out.new result }
{
    if 0 < out.len() {
        out[0] = b;
    }
    1
}

// Writes src to the front of out, as far as it fits; answers src's length.
// Kept: no copy_from_slice, which is compiled to memmove where it is inlined: the archive needs memcpy and memset alone (lib-test).
pub fn put_slice(out: &mut [u8], src: &[u8]) -> usize
    ensures { Wrote src.now out.old out.new result }
{
    let n = clip(src.len(), out.len());
    for i in 0..n {
        out[i] = src[i];
    }
    src.len()
}

// Writes a byte at a place, where it fits; answers the place after it.
pub fn add_byte(out: &mut [u8], at: usize, b: u8) -> usize
    ensures { AppendedCapped (b ∷ []) at out.old out.new result }
{
    let a = clip(at, out.len());
    place_after(at, put_byte(&mut out[a..], b))
}

// Writes src from a place on, as far as it fits; answers the place after it.
pub fn add_slice(out: &mut [u8], at: usize, src: &[u8]) -> usize
    ensures { AppendedCapped src.now at out.old out.new result }
{
    let start = clip(at, out.len());
    place_after(at, put_slice(&mut out[start..], src))
}
