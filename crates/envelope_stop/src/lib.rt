// The first byte at which an envelope line stops being a beginning of any well-formed line.
#![tactic(auto)]

ghost use Rattle.std.specs.Prelude.{◌≡◌, ◌+◌, ◌≤◌, drop};
ghost use Rattle.line_stop.specs.Word.{is_next};
ghost use Rattle.envelope_line.specs.EnvelopeLine.{verb};
ghost use Rattle.envelope_stop.specs.EnvelopeStop.{verb_step, after_path, form_step, form_done, form_live, verb_need, form_need, form, line_stop};

use envelope_line::path_start;
use line_stop::LineForm;
use parameter_stop::Tail;
use path_stop::PathForm;

// Where an envelope line stands.
#[derive(Clone, Copy)]
pub enum Form {
    // In its verb: whether it is the MAIL line's, and how many bytes of it have come.
    Verb(bool, usize),
    // In its path, or after that's `>`.
    Path(PathForm),
    // In its parameters.
    Params(Tail),
    // No byte helps.
    Bad,
}

// Whether a byte goes on with a verb.
#[tactic(auto, unfolding(envelope_line::specs::EnvelopeLine::verb, letter_case::specs::LetterCase::bytes))]
fn is_verb_byte(mail: bool, n: usize, b: u8) -> bool
    ensures { result ≡ is_next (verb mail) n b }
{
    if mail {
        return line_stop::is_next(b"MAIL FROM:<", n, b);
    }
    line_stop::is_next(b"RCPT TO:<", n, b)
}

#[tactic(auto, using(crate::specs::EnvelopeStopLaws::verb_within), unfolding(crate::specs::EnvelopeStop::verb_step))]
fn verb_step(mail: bool, n: usize, b: u8) -> Form
    ensures { result ≡ verb_step mail n b }
{
    if !is_verb_byte(mail, n, b) {
        return Form::Bad;
    }
    let next = n + 1;
    if next == path_start(mail) {
        return Form::Path(PathForm::Start(mail));
    }
    Form::Verb(mail, next)
}

#[tactic(auto, unfolding(crate::specs::EnvelopeStop::after_path))]
fn after_path(p: PathForm, b: u8) -> Form
    ensures { result ≡ after_path p b }
{
    if p.is_done() {
        return Form::Params(Tail::Start.step(b));
    }
    Form::Path(p.step(b))
}

// The fewest bytes that complete a line of whose verb n bytes have come: its rest, and the fewest of a path with its `>`.
#[tactic(auto, unfolding(crate::specs::EnvelopeStop::verb_need))]
fn verb_need(mail: bool, n: usize) -> usize
    ensures { (result ≡ verb_need mail n) × (result ≤ 15) }
{
    let left = path_start(mail).saturating_sub(n);
    if mail {
        return left + 1;
    }
    left + 4
}

impl LineForm for Form {
    ghost form = { form };

    fn step(self, b: u8) -> Form
        ensures { result ≡ form_step self b }
    {
        match self {
            Form::Verb(mail, n) => verb_step(mail, n, b),
            Form::Path(p) => after_path(p, b),
            Form::Params(t) => Form::Params(t.step(b)),
            Form::Bad => Form::Bad,
        }
    }

    fn is_done(self) -> bool
        ensures { result ≡ form_done self }
    {
        match self {
            Form::Path(p) => p.is_done(),
            Form::Params(t) => t.is_done(),
            Form::Verb(_, _) | Form::Bad => false,
        }
    }

    fn is_live(self) -> bool
        ensures { result ≡ form_live self }
    {
        match self {
            Form::Verb(mail, n) => n < path_start(mail),
            Form::Path(p) => p.is_live(),
            Form::Params(t) => t.is_live(),
            Form::Bad => false,
        }
    }

    fn need(self) -> usize
        ensures { (result ≡ form_need self) × (result ≤ 15) }
    {
        match self {
            Form::Verb(mail, n) => verb_need(mail, n),
            Form::Path(p) => p.need(),
            Form::Params(t) => t.need(),
            Form::Bad => 0,
        }
    }
}

// The first byte from `at` on at which the line there, its CRLF with it, stops being a beginning of any well-formed line at the number
// n; the text's end where none does.
#[tactic(auto, unfolding(crate::specs::EnvelopeStop::line_stop))]
pub fn stop(s: &[u8], at: usize, n: usize) -> usize
    ensures { result ≡ at + line_stop n (drop at s.now) }
{
    if 100 < n {
        return at;
    }
    line_stop::stop(Form::Verb(n == 0, 0), s, at, 998)
}
