// The first byte at which a header line stops being a beginning of any well-formed line.
#![tactic(auto)]

ghost use Rattle.std.specs.Prelude.{◌≡◌, ◌+◌, ◌≤◌, drop};
ghost use Rattle.header_line.specs.Lines.{line_byte};
ghost use Rattle.header_stop.specs.HeaderStop.{start_step, name_more, name_step, body_step, form_step, form_need, not_bad, is_body, form, line_stop};

use header_line::is_name_byte;
use line_stop::LineForm;

// Where a header line stands.
#[derive(Clone, Copy)]
pub enum Form {
    // Nothing has come; whether it is the header's first line.
    Start(bool),
    // In its name, which has room for so many more bytes.
    Name(usize),
    Body,
    Bad,
}

#[tactic(auto, unfolding(header_line::specs::Lines::line_byte))]
fn is_line_byte(b: u8) -> bool
    ensures { result ≡ line_byte b }
{
    !((b == 0) | (b == 10) | (b == 13))
}

#[tactic(auto, unfolding(crate::specs::HeaderStop::start_step))]
fn start_step(first: bool, b: u8) -> Form
    ensures { result ≡ start_step first b }
{
    if line::is_blank(b) & !first {
        return Form::Body;
    }
    if is_name_byte(b) {
        return Form::Name(75);
    }
    Form::Bad
}

fn name_more(k: usize) -> Form
    ensures { result ≡ name_more k }
{
    if k == 0 {
        return Form::Bad;
    }
    Form::Name(k - 1)
}

#[tactic(auto, unfolding(crate::specs::HeaderStop::name_step))]
fn name_step(k: usize, b: u8) -> Form
    ensures { result ≡ name_step k b }
{
    if is_name_byte(b) {
        return name_more(k);
    }
    if b == 58 {
        return Form::Body;
    }
    Form::Bad
}

#[tactic(auto, unfolding(crate::specs::HeaderStop::body_step))]
fn body_step(b: u8) -> Form
    ensures { result ≡ body_step b }
{
    if is_line_byte(b) {
        return Form::Body;
    }
    Form::Bad
}

impl LineForm for Form {
    ghost form = { form };

    fn step(self, b: u8) -> Form
        ensures { result ≡ form_step self b }
    {
        match self {
            Form::Start(first) => start_step(first, b),
            Form::Name(k) => name_step(k, b),
            Form::Body => body_step(b),
            Form::Bad => Form::Bad,
        }
    }

    fn is_done(self) -> bool
        ensures { result ≡ is_body self }
    {
        matches!(self, Form::Body)
    }

    fn is_live(self) -> bool
        ensures { result ≡ not_bad self }
    {
        !matches!(self, Form::Bad)
    }

    fn need(self) -> usize
        ensures { (result ≡ form_need self) × (result ≤ 2) }
    {
        match self {
            Form::Start(first) => if first { 2 } else { 1 },
            Form::Name(_) => 1,
            Form::Body | Form::Bad => 0,
        }
    }
}

// The first byte from `at` on at which the line there, its CRLF with it, stops being a beginning of any well-formed line; the text's end
// where none does. `first`: whether it is the header's first line.
#[tactic(auto, unfolding(crate::specs::HeaderStop::line_stop))]
pub fn stop(s: &[u8], at: usize, first: bool) -> usize
    ensures { result ≡ at + line_stop first (drop at s.now) }
{
    line_stop::stop(Form::Start(first), s, at, 998)
}
