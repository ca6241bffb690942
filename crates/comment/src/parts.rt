// The parts of a comment: its parentheses, and the runs of text between them.
ghost use Rattle.std.specs.Prelude.{◌≡◌, ◌+◌, drop};
ghost use Rattle.lists.specs.Lists.{all};
ghost use Rattle.buffer.specs.Buffer.{AppendedCapped};
ghost use Rattle.comment.specs.Comment.{is_paren, is_text, run_len};
ghost use Rattle.comment.specs.Parts.{part_len, parts, stays_in_run, run_text, is_blank_run, fits};

use byte_class::Class;
use unquote::Stays;

// The bytes of a comment that are neither a parenthesis nor a backslash.
struct Text;

impl Class for Text {
    ghost member = { is_text is_paren };

    fn holds(b: u8) -> bool {
        !((b == b'(') | (b == b')') | (b == b'\\'))
    }
}

// Where the run of text from `at` ends: at the first parenthesis that is not escaped, or at the end.
pub fn run_end(s: &[u8], at: usize) -> usize
    ensures { result ≡ at + run_len (drop at s.now) }
{
    let mut i = at;
    while i < s.len() {
        let p = byte_class::run_end::<Text>(s, i);
        if s.len() <= p {
            return p;
        }
        if s[p] != b'\\' {
            return p;
        }
        let escaped = p + 1;
        if s.len() <= escaped {
            return escaped;
        }
        i = escaped + 1;
    }
    i
}

// Where the part at `at` of a comment ends: a parenthesis, or the run of text up to the next one.
pub fn part_end(s: &[u8], at: usize) -> usize
    ensures { result ≡ at + part_len (drop at s.now) }
{
    if s.len() <= at {
        return at;
    }
    let b = s[at];
    if (b == b'(') | (b == b')') {
        return at + 1;
    }
    run_end(s, at)
}

// Whether a part is spaces and TABs only.
pub fn is_blank_run(part: &[u8]) -> bool
    ensures { result ≡ is_blank_run part.now }
{
    part.len() <= line::blanks_end(part, 0)
}

// Whether a part may stand in an address field.
fn part_fits(part: &[u8]) -> bool
    ensures { result ≡ fits part.now }
{
    if part.len() <= 900 {
        return true;
    }
    is_blank_run(part)
}

// Whether every part of a comment may.
pub fn parts_fit(comment: &[u8]) -> bool
    ensures { result ≡ all fits (parts comment.now) }
{
    let mut i: usize = 0;
    while i < comment.len() {
        let e = part_end(comment, i);
        if !part_fits(&comment[i..e]) {
            return false;
        }
        i = e;
    }
    true
}

// Without escapes and folds.
struct RunText;

impl Stays for RunText {
    ghost stays = { stays_in_run };

    fn holds(escaped: bool, b: u8) -> bool {
        (escaped | !(b == b'\\')) & !((b == 13) | (b == 10))
    }
}

// Writes a run without escapes and folds from a place on, as far as it fits; answers the place after it.
#[tactic(auto, unfolding(crate::specs::Parts::run_text))]
pub fn add_run_text(out: &mut [u8], at: usize, run: &[u8]) -> usize
    ensures { AppendedCapped (run_text run.now) at out.old out.new result }
{
    unquote::add_kept_text::<RunText>(out, at, run)
}
