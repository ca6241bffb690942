// Texts by places in them: a byte, a part, the end of a line.
#![tactic(auto)]

ghost use Rattle.std.specs.Prelude.{◌≡◌, true, false, cond, ◌+◌, ◌-◌, ◌≤◌, length, take, drop, get_or, MatchOption};
ghost use Rattle.lists.specs.Run.{run};
ghost use Rattle.line.specs.Line.{blank, crlf, line_len, not_cr, cr_run};
ghost use Rattle.line.specs.CrLaws.{Counted, CrStep};

use byte_class::Class;

// The byte at a place; 0 past the end.
pub fn byte_at(s: &[u8], at: usize) -> u8
    ensures { result ≡ get_or s.now at 0 }
{
    s.get(at).copied().unwrap_or(0)
}

// Space or TAB.
pub fn is_blank(b: u8) -> bool
    ensures { result ≡ blank b }
{
    (b == 32) | (b == 9)
}

struct Blank;

impl Class for Blank {
    ghost member = { blank };

    fn holds(b: u8) -> bool {
        is_blank(b)
    }
}

// Where the spaces and TABs from a place on end.
pub fn blanks_end(s: &[u8], at: usize) -> usize
    ensures { result ≡ at + run blank (drop at s.now) }
{
    byte_class::run_end::<Blank>(s, at)
}

// Whether CRLF stands at a place.
pub fn crlf_at(s: &[u8], at: usize) -> bool
    ensures { result ≡ crlf (drop at s.now) }
{
    if s.len() <= at {
        return false;
    }
    (s[at] == 13) & (byte_at(s, at + 1) == 10)
}

// The bytes of a text from `from` up to `to`, as far as they are there.
pub fn part(s: &[u8], from: usize, to: usize) -> &[u8]
    ensures { result.now ≡ take (to - from) (drop from s.now) }
{
    let end = buffer::clip(to, s.len());
    let start = buffer::clip(from, end);
    &s[start..end]
}

// Bytes that are no CR.
struct NotCr;

impl Class for NotCr {
    ghost member = { not_cr };

    fn holds(b: u8) -> bool {
        b != 13
    }
}

// The place of the first CR from `at` on; where there is none, the length, or `at` where that lies past it.
pub fn next_cr(s: &[u8], at: usize) -> usize
    ensures { result ≡ at + cr_run (drop at s.now) }
{
    byte_class::long_run_end::<NotCr>(s, at)
}

// How many CRs stand among 64 bytes, and the place of the only one.
#[derive(Clone, Copy)]
struct Crs {
    count: u8,
    place: u8,
}

// A place where there is a CR, else 0. No branch, so that the loop over it is compiled to vector instructions.
fn if_cr(cr: bool, n: u8) -> u8
    ensures { result ≡ cond cr n 0 }
{
    if cr { n } else { 0 }
}

// The CRs of the 64 bytes from `at` on. The sums are compiled to vector instructions; the sum of the places is the place where there is one.
fn crs64(s: &[u8], at: usize) -> Crs
    requires { at + 64 ≤ length s.now }
    ensures { Counted s.now at 64 result.count result.place }
{
    let mut n = 0u8;
    let mut p = 0u8;
    for j in 0..64u8 {
        let cr = s[at + usize::from(j)] == 13;
        n += u8::from(cr);
        p = p.wrapping_add(if_cr(cr, j));
    }
    Crs { count: n, place: p }
}

// A step of a search for CRs: the CR that was found, and where to search on. Where no CR stands from the search's place on, it is
// "found" at the text's end.
#[derive(Clone, Copy, Debug, PartialEq, Eq)]
pub struct CrFound {
    pub cr: Option<usize>,
    pub next: usize,
}

fn first_cr(s: &[u8], i: usize) -> CrFound
    ensures { MatchOption result.cr (CrStep s.now i false i result.next) (λ e. CrStep s.now i true e result.next) }
{
    let e = next_cr(s, i);
    if s.len() <= e {
        return CrFound {
            cr: Some(e),
            next: e,
        };
    }
    CrFound {
        cr: Some(e),
        next: e + 1,
    }
}

// The next CR from i on, or none in a block of 64 bytes. Where a block has at most one CR, the next block does not depend on its place.
pub fn find_cr(s: &[u8], i: usize) -> CrFound
    ensures { MatchOption result.cr (CrStep s.now i false i result.next) (λ e. CrStep s.now i true e result.next) }
{
    if s.len() <= i {
        return CrFound {
            cr: Some(i),
            next: i,
        };
    }
    if s.len() - i < 64 {
        return first_cr(s, i);
    }
    let c = crs64(s, i);
    let n = c.count;
    let p = c.place;
    if n == 0 {
        return CrFound {
            cr: None,
            next: i + 64,
        };
    }
    if n == 1 {
        return CrFound {
            cr: Some(i + usize::from(p)),
            next: i + 64,
        };
    }
    first_cr(s, i)
}

// The place of the first CRLF from `at` on; where there is none, the length, or `at` where that lies past it.
pub fn line_end(s: &[u8], at: usize) -> usize
    ensures { result ≡ at + line_len (drop at s.now) }
{
    if s.len() <= at {
        return at;
    }
    let mut i = next_cr(s, at);
    while i < s.len() {
        let after = i + 1;
        if byte_at(s, after) == 10 {
            return i;
        }
        i = next_cr(s, after);
    }
    i
}
