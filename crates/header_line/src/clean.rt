// Whether a whole header is UTF-8 without NUL and without lone CR or LF, in blocks: each byte is tested beside the three before it.
// Tests are without branches and loops over them have a fixed count, so that they are compiled to vector instructions.
ghost use Rattle.std.specs.Prelude.{◌≡◌, true, ◌&&◌, ◌+◌, ◌-◌, ◌≤◌, length, get_or, IfSome};
ghost use Rattle.lists.specs.Byte.{is_ascii};
ghost use Rattle.utf8.specs.Window.{window_at, all_at};
ghost use Rattle.utf8.specs.WindowLaws.{Clear};
ghost use Rattle.header_line.specs.Clean.{line_after, line_placed, line_placed3, calm, lines_start, lines_end, Clean};
ghost use Rattle.header_line.specs.CleanLaws.{Calm as CalmBlock, Advance};

use utf8::Window;

// Whether d may stand after c: no NUL, and a LF just where a CR stands before it.
fn is_after(c: u8, d: u8) -> bool
    ensures { result ≡ line_after c d }
{
    let lf = d == 10;
    let cr = c == 13;
    !(d == 0) & (lf & cr | !lf & !cr)
}

// Windows of ASCII.
struct Calm;

impl Window for Calm {
    ghost passes = { calm };

    #[tactic(auto, unfolding(crate::specs::Clean::calm))]
    fn holds(_a: u8, _b: u8, c: u8, d: u8) -> bool {
        (d < 128) & is_after(c, d)
    }
}

struct Placed;

impl Window for Placed {
    ghost passes = { line_placed };

    #[tactic(auto, unfolding(crate::specs::Clean::line_placed))]
    fn holds(a: u8, b: u8, c: u8, d: u8) -> bool {
        utf8::is_placed(a, b, c, d) & is_after(c, d)
    }
}

// Windows of characters of at most three bytes.
struct Placed3;

impl Window for Placed3 {
    ghost passes = { line_placed3 };

    #[tactic(auto, unfolding(crate::specs::Clean::line_placed3))]
    fn holds(a: u8, b: u8, c: u8, d: u8) -> bool {
        utf8::is_placed3(a, b, c, d) & is_after(c, d)
    }
}

// Whether N bytes pass: those after the three at `at`.
fn block_passes<W: Window, const N: usize>(h: &[u8], at: usize) -> bool
    requires { at + N + 3 ≤ length h.now }
    ensures { result ≡ all_at (window_at W.passes h.now) at N }
{
    utf8::all_windows::<W>(&h[at..at + N + 3])
}

fn is_ascii3(h: &[u8], at: usize) -> bool
    requires { at + 3 ≤ length h.now }
    ensures { result ≡ (is_ascii (get_or h.now at 0) && is_ascii (get_or h.now (at + 1) 0) && is_ascii (get_or h.now (at + 2) 0)) }
{
    (h[at] < 128) & (h[at + 1] < 128) & (h[at + 2] < 128)
}

// Whether three ASCII bytes stand at `at`, and 64 such after them. Where one of a few is not ASCII, the test of all is not worth its time.
fn is_calm_block(h: &[u8], at: usize) -> bool
    requires { at ≤ length h.now }
    ensures { CalmBlock h.now at result }
{
    if h.len() - at < 67 {
        return false;
    }
    if !is_ascii3(h, at) {
        return false;
    }
    if (128 <= h[at + 18]) | (128 <= h[at + 34]) | (128 <= h[at + 50]) {
        return false;
    }
    block_passes::<Calm, 64>(h, at)
}

// The place after the block of 64 or 32 bytes at `at`; none where that does not pass.
fn block_end(h: &[u8], at: usize) -> Option<usize>
    requires { at + 35 ≤ length h.now }
    ensures { IfSome result (λ next. Advance h.now at next) }
{
    if is_calm_block(h, at) {
        return Some(at + 64);
    }
    if block_passes::<Placed3, 32>(h, at) {
        return Some(at + 32);
    }
    if block_passes::<Placed, 32>(h, at) {
        return Some(at + 32);
    }
    None
}

// Whether all bytes from the fourth on pass. The last block ends the header and may overlap the one before it.
fn blocks_clean(h: &[u8]) -> bool
    requires { 35 ≤ length h.now }
    ensures { result ≡ true → Clear (window_at line_placed h.now) (length h.now - 3) }
{
    let last = h.len() - 35;
    let mut at: usize = 0;
    while at < last {
        match block_end(h, at) {
            Some(next) => at = next,
            None => return false,
        }
    }
    block_passes::<Placed, 32>(h, last)
}

fn starts_clean(h: &[u8]) -> bool
    requires { 3 ≤ length h.now }
    ensures { result ≡ lines_start h.now }
{
    utf8::all_windows::<Placed>(&[0, 0, 0, h[0], h[1], h[2]])
}

fn ends_clean(h: &[u8], at: usize) -> bool
    requires { at + 3 ≤ length h.now }
    ensures { result ≡ lines_end (get_or h.now at 0) (get_or h.now (at + 1) 0) (get_or h.now (at + 2) 0) }
{
    (h[at + 2] == 10) & (h[at + 1] < 224) & (h[at] < 240)
}

// Whether a header of 35 bytes or more is clean.
pub(crate) fn is_clean(h: &[u8]) -> bool
    ensures { result ≡ true → Clean h.now }
{
    if h.len() < 35 {
        return false;
    }
    if !starts_clean(h) {
        return false;
    }
    if !ends_clean(h, h.len() - 3) {
        return false;
    }
    blocks_clean(h)
}
