// The first byte at which a line stops being a beginning of any well-formed line: what the scans of header lines and of envelope lines
// share.
#![tactic(auto)]

ghost use Rattle.std.specs.Prelude.{◌≡◌, ◌+◌, ◌<◌, ◌≤◌, drop};
ghost use Rattle.line_stop.specs.Scanner.{Scanner, alive, stop_lf, stop_from};
ghost use Rattle.line_stop.specs.Word.{is_next, matched as matched_bytes};
ghost use Rattle.line_stop.specs.CharScan.{begun, between, nowhere, is_zero, lead, tail_count, char_step, char_live};
ghost use Rattle.line_stop.specs.Product.{both};

use letter_case::lower;

// What the character that has begun lacks: how many bytes, and from where to where the next of them lies.
// Kept: no Option for "no byte helps", since the definitions `nowhere`, `step_by` and `both` of specs/ are over this record.
#[derive(Clone, Copy)]
pub struct Begun {
    pub lack: u8,
    pub low: u8,
    pub high: u8,
}

// How many bytes follow a character's first byte.
#[tactic(auto, using(utf8::specs::Utf8Laws::char_len_some, utf8::specs::Utf8Laws::char_len_le), unfolding(crate::specs::CharScan::tail_count))]
fn tail_count(b: u8) -> u8
    ensures { result ≡ tail_count b }
{
    (utf8::char_len(b) - 1) as u8
}

impl Begun {
    // Between two characters.
    pub fn between() -> Begun
        ensures { result ≡ between }
    {
        Begun::tail(0)
    }

    // Lacking so many bytes past a character's second.
    fn tail(lack: u8) -> Begun
        ensures { result ≡ begun lack 128 191 }
    {
        Begun {
            lack,
            low: 128,
            high: 191,
        }
    }

    // Where no byte helps, as none lies from 255 to 0.
    fn nowhere() -> Begun
        ensures { result ≡ nowhere }
    {
        Begun {
            lack: 1,
            low: 255,
            high: 0,
        }
    }

    // After the first byte of a character.
    #[tactic(auto, using(crate::proofs::CharScanLaws::lead_multi), unfolding(crate::specs::CharScan::lead))]
    fn lead(b: u8) -> Begun
        ensures { result ≡ lead b }
    {
        if b < 128 {
            return Begun::between();
        }
        if (194 <= b) & (b <= 244) {
            return Begun {
                lack: tail_count(b),
                low: utf8::second_low(b),
                high: utf8::second_high(b),
            };
        }
        Begun::nowhere()
    }

    // After one more byte.
    #[tactic(auto, using(crate::proofs::CharScanLaws::step_tail), unfolding(crate::specs::CharScan::step_by))]
    pub fn step(self, b: u8) -> Begun
        ensures { result ≡ char_step self b }
    {
        if self.lack == 0 {
            return Begun::lead(b);
        }
        if (self.low <= b) & (b <= self.high) {
            return Begun::tail(self.lack - 1);
        }
        Begun::nowhere()
    }

    // Whether some bytes complete the character.
    #[tactic(auto, unfolding(crate::specs::CharScan::char_live))]
    pub fn is_live(self) -> bool
        ensures { result ≡ char_live self }
    {
        if self.lack == 0 {
            return true;
        }
        self.low <= self.high
    }

    // Whether no character has begun.
    pub fn is_done(self) -> bool
        ensures { result ≡ is_zero self.lack }
    {
        self.lack == 0
    }

    // How many bytes the character lacks.
    pub fn need(self) -> usize
        ensures { (result ≡ self.lack) × (result < 256) }
    {
        usize::from(self.lack)
    }
}

// The form of a line, or of a part of one, by one byte at a time: an automaton over the bytes before the CRLF.
pub trait LineForm: Copy {
    ghost form: { Scanner Self };

    // After one more byte.
    fn step(self, b: u8) -> Self
        ensures { result ≡ form.step self b };

    // Whether the line may end.
    fn is_done(self) -> bool
        ensures { result ≡ form.done self };

    // Whether some bytes complete the form.
    fn is_live(self) -> bool
        ensures { result ≡ form.live self };

    // The fewest bytes that complete it.
    fn need(self) -> usize
        ensures { (result ≡ form.need self) × (result < 256) };
}

// The end of the LF at i, or i.
#[tactic(auto, using(crate::proofs::PlaceLaws::lf_yes, crate::proofs::PlaceLaws::lf_no, crate::proofs::PlaceLaws::lf_end))]
pub fn after_lf(s: &[u8], i: usize) -> usize
    ensures { result ≡ i + stop_lf (drop i s.now) }
{
    if i < s.len() {
        if s[i] == 10 {
            return i + 1;
        }
    }
    i
}

// Whether a line of which n bytes stand can still be completed within the limit.
fn is_alive<F: LineForm>(char: Begun, form: F, n: usize, limit: usize) -> bool
    ensures { result ≡ alive (both F.form) limit n (char, form) }
{
    if limit < n {
        return false;
    }
    char.is_live() & form.is_live() & (char.need() + form.need() <= limit - n)
}

// The first byte from `at` on at which the line there, its CRLF with it, stops being a beginning of any line that completes the form
// `start` within the limit; the text's end where none does.
pub fn stop<F: LineForm>(start: F, s: &[u8], at: usize, limit: usize) -> usize
    ensures { result ≡ at + stop_from (both F.form) limit 0 (between, start) (drop at s.now) }
{
    if s.len() <= at {
        return at;
    }
    let mut char = Begun::between();
    let mut form = start;
    for i in at..s.len() {
        let b = s[i];
        if b == 13 {
            if !(char.is_done() & form.is_done()) {
                return i;
            }
            return after_lf(s, i + 1);
        }
        char = char.step(b);
        form = form.step(b);
        if !is_alive(char, form, i + 1 - at, limit) {
            return i;
        }
    }
    s.len()
}

// Whether a byte goes on, in any case, with a word of which n bytes have come.
#[tactic(auto, unfolding(crate::specs::Word::is_next))]
pub fn is_next(word: &[u8], n: usize, b: u8) -> bool
    ensures { result ≡ is_next word.now n b }
{
    if word.len() <= n {
        return false;
    }
    lower(word[n]) == lower(b)
}

// How many bytes of the word have come after the byte b; one more than it has, where the text is another.
#[tactic(auto, using(crate::proofs::WordLaws::next_within), unfolding(crate::specs::Word::matched))]
pub fn matched(word: &[u8], n: usize, b: u8) -> usize
    ensures { result ≡ matched_bytes word.now n b }
{
    if is_next(word, n, b) {
        return n + 1;
    }
    word.len() + 1
}
