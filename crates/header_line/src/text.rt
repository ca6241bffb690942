// The bytes of a line.
ghost use Rattle.std.specs.Prelude.{◌≡◌, ◌≤◌, length};
ghost use Rattle.header_line.specs.LineLaws.{plain, Step, TextEnd};

use byte_class::Class;

// An ASCII byte that a line may hold.
fn is_plain(b: u8) -> bool
    ensures { result ≡ plain b }
{
    !((b == 0) | (b == 10) | (b == 13)) & (b < 128)
}

struct Plain;

impl Class for Plain {
    ghost member = { plain };

    fn holds(b: u8) -> bool {
        is_plain(b)
    }
}

// The place after the ASCII bytes or the character at i; none where the text of a line stops there. A block costs more than a test of
// the next byte, which ends most runs in text that is not ASCII.
fn text_step(h: &[u8], i: usize) -> Option<usize>
    requires { i ≤ length h.now }
    ensures { Step h.now i result }
{
    let b = *h.get(i)?;
    if b < 128 {
        if !is_plain(b) {
            return None;
        }
        if 128 <= line::byte_at(h, i + 1) {
            return Some(i + 1);
        }
        return Some(byte_class::long_run_end::<Plain>(h, i));
    }
    let n = utf8::char_at(h, i);
    if n == 0 {
        return None;
    }
    Some(i + n)
}

// Where the text of the line at `at` stops: before a NUL, CR, LF or what is not UTF-8, or at the end.
pub(crate) fn text_end(h: &[u8], at: usize) -> usize
    requires { at ≤ length h.now }
    ensures { TextEnd h.now at result }
{
    let mut i = at;
    while let Some(next) = text_step(h, i) {
        i = next;
    }
    i
}
