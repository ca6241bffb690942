// The lines of a header section.
#![tactic(auto)]

mod clean;
mod text;

ghost use Rattle.std.specs.Prelude.{◌≡◌, ◌||◌, ◌+◌, ◌<◌, ◌≤◌, length, take, drop};
ghost use Rattle.std.specs.Int.Count.{count_trailing_zeros};
ghost use Rattle.lists.specs.Run.{run};
ghost use Rattle.header_line.specs.Lines.{name_byte, name_len, named_to, continuation, after_line, checked_lines};
ghost use Rattle.header_line.specs.LineLaws.{shaped_to};
ghost use Rattle.header_line.specs.Clean.{Clean};
ghost use Rattle.header_line.specs.NameLaws.{Weighed};

use byte_class::Class;
use line::is_blank;

// The first malformed line of a header: its number, and the byte where it starts.
#[derive(Clone, Copy, Debug, PartialEq, Eq)]
pub struct MalformedLine {
    pub line: usize,
    pub at: usize,
}

pub fn is_name_byte(b: u8) -> bool
    ensures { result ≡ name_byte b }
{
    (33 <= b) & (b <= 126) & !(b == 58)
}

struct NameByte;

impl Class for NameByte {
    ghost member = { name_byte };

    fn holds(b: u8) -> bool {
        is_name_byte(b)
    }
}

// The length of the name at the front of a line or a field.
#[tactic(auto, unfolding(crate::specs::Lines::name_len))]
pub fn name_len(line: &[u8]) -> usize
    ensures { result ≡ name_len line.now }
{
    byte_class::run_end::<NameByte>(line, 0)
}

// What a byte adds to a sum of eight: 1 for a name byte, else w.
fn weigh(b: u8, w: u8) -> u8
    ensures { Weighed b w result }
{
    if is_name_byte(b) { 1 } else { w }
}

// A bit for each of eight bytes that is no name byte. Weights are powers of two and 1 more, so that the sum is compiled to vector instructions.
fn stops8(line: &[u8], i: usize) -> u8
    requires { i + 8 ≤ length line.now }
    ensures { (result < 256) × (count_trailing_zeros 8 result ≡ run name_byte (take 8 (drop i line.now))) }
{
    let a = weigh(line[i], 2) + weigh(line[i + 1], 3);
    let b = weigh(line[i + 2], 5) + weigh(line[i + 3], 9);
    let c = weigh(line[i + 4], 17) + weigh(line[i + 5], 33);
    let d = weigh(line[i + 6], 65) + weigh(line[i + 7], 129);
    (((a + b) as u16 + (c + d) as u16 + 248) % 256) as u8
}

// The same length, by eights for the first sixteen bytes.
fn name_run(line: &[u8]) -> usize
    ensures { result ≡ name_len line.now }
{
    if line.len() < 16 {
        return name_len(line);
    }
    let m = stops8(line, 0);
    if m != 0 {
        return u8::trailing_zeros(m) as usize;
    }
    let k = stops8(line, 8);
    if k != 0 {
        return 8 + u8::trailing_zeros(k) as usize;
    }
    name_len(line)
}

// Whether a line starts with a name of at most `limit` bytes and a colon.
fn is_named(line: &[u8], limit: usize) -> bool
    ensures { result ≡ named_to limit line.now }
{
    let n = name_run(line);
    (1 <= n) & (n <= limit) & (line::byte_at(line, n) == 58)
}

// Whether a line is a continuation, or starts with a name and a colon.
fn starts_well(first: bool, line: &[u8], limit: usize) -> bool
    ensures { result ≡ (continuation first line.now || named_to limit line.now) }
{
    if is_blank(line::byte_at(line, 0)) {
        return !first;
    }
    is_named(line, limit)
}

fn is_shaped(first: bool, line: &[u8], limit: usize) -> bool
    ensures { result ≡ shaped_to limit first line.now }
{
    if !((1 <= line.len()) & (line.len() <= 998)) {
        return false;
    }
    starts_well(first, line, limit)
}

// The place after the line at `at`; none where that line is malformed, with a name of at most `limit` bytes.
pub fn line_after(h: &[u8], at: usize, first: bool, limit: usize) -> Option<usize>
    ensures { result ≡ after_line limit first h.now at }
{
    if h.len() <= at {
        return None;
    }
    let e = text::text_end(h, at);
    if !line::crlf_at(h, e) {
        return None;
    }
    if !is_shaped(first, &h[at..e], limit) {
        return None;
    }
    Some(e + 2)
}

// Checks the lines of a header, byte by byte.
fn check_slowly(h: &[u8]) -> Result<(), MalformedLine>
    ensures { result ≡ checked_lines h.now }
{
    let mut at: usize = 0;
    let mut n: usize = 0;
    while at < h.len() {
        at = line_after(h, at, n == 0, 76).ok_or(MalformedLine { line: n, at })?;
        n += 1;
    }
    Ok(())
}

// Checks the lines of a clean header. CRs are searched in blocks from i on: the next CR from i is the end of the line at `at`.
fn check_clean(h: &[u8]) -> Result<(), MalformedLine>
    requires { Clean h.now }
    ensures { result ≡ checked_lines h.now }
{
    let mut at: usize = 0;
    let mut n = 0;
    let mut i: usize = 0;
    while at < h.len() {
        let step = line::find_cr(h, i);
        i = step.next;
        if let Some(e) = step.cr {
            if !is_shaped(n == 0, &h[at..e], 76) {
                return Err(MalformedLine { line: n, at });
            }
            at = e + 2;
            n += 1;
        }
    }
    Ok(())
}

// Checks the lines of a header.
pub fn check(h: &[u8]) -> Result<(), MalformedLine>
    ensures { result ≡ checked_lines h.now }
{
    if clean::is_clean(h) {
        return check_clean(h);
    }
    check_slowly(h)
}
