// The tail of an envelope line, the parameters after its path, by one byte at a time.
#![tactic(auto)]

ghost use Rattle.std.specs.Prelude.{◌≡◌, ◌≤◌};
ghost use Rattle.parameter_stop.specs.ParameterStop.{key_more, start_step, due_step, key_end, key_step, equals_step, value_step, tail_step, tail_done, tail_live, tail_need, tail};

use line_stop::LineForm;
use parameter::{is_keyword_byte, is_value_byte};

// Where a tail stands. `seen`: whether an ALT-ADDRESS with its `=` has come.
#[derive(Clone, Copy)]
pub enum Tail {
    // Straight after the path.
    Start,
    // After a space, where a parameter is due: seen.
    Due(bool),
    // In a keyword: how many bytes of ALT-ADDRESS and of ORCPT it is, and seen.
    Key(usize, usize, bool),
    // After an `=`, where a value is due, and in a value: whether it is an ORCPT's, and seen.
    Equals(bool, bool),
    Value(bool, bool),
    // No byte helps.
    Off,
}

// A byte more of a keyword.
#[tactic(auto, unfolding(letter_case::specs::LetterCase::bytes))]
fn key_more(alt: usize, orcpt: usize, seen: bool, b: u8) -> Tail
    ensures { result ≡ key_more alt orcpt seen b }
{
    let a = line_stop::matched(b"ALT-ADDRESS", alt, b);
    let o = line_stop::matched(b"ORCPT", orcpt, b);
    Tail::Key(a, o, seen)
}

#[tactic(auto, unfolding(crate::specs::ParameterStop::start_step))]
fn start_step(b: u8) -> Tail
    ensures { result ≡ start_step b }
{
    if b == 32 {
        return Tail::Due(false);
    }
    Tail::Off
}

#[tactic(auto, unfolding(crate::specs::ParameterStop::due_step))]
fn due_step(seen: bool, b: u8) -> Tail
    ensures { result ≡ due_step seen b }
{
    if is_keyword_byte(b) & !(b == 45) {
        return key_more(0, 0, seen, b);
    }
    Tail::Off
}

// After a keyword, which is ALT-ADDRESS or is ORCPT.
#[tactic(auto, unfolding(crate::specs::ParameterStop::key_end))]
fn key_end(alt: bool, orcpt: bool, seen: bool, b: u8) -> Tail
    ensures { result ≡ key_end alt orcpt seen b }
{
    if (b == 61) & !(alt & seen) {
        return Tail::Equals(orcpt, alt | seen);
    }
    if (b == 32) & !alt {
        return Tail::Due(seen);
    }
    Tail::Off
}

#[tactic(auto, unfolding(crate::specs::ParameterStop::key_step))]
fn key_step(alt: usize, orcpt: usize, seen: bool, b: u8) -> Tail
    ensures { result ≡ key_step alt orcpt seen b }
{
    if is_keyword_byte(b) {
        return key_more(alt, orcpt, seen, b);
    }
    key_end(alt == 11, orcpt == 5, seen, b)
}

#[tactic(auto, unfolding(crate::specs::ParameterStop::equals_step))]
fn equals_step(orcpt: bool, seen: bool, b: u8) -> Tail
    ensures { result ≡ equals_step orcpt seen b }
{
    if is_value_byte(b, orcpt) {
        return Tail::Value(orcpt, seen);
    }
    Tail::Off
}

#[tactic(auto, unfolding(crate::specs::ParameterStop::value_step))]
fn value_step(orcpt: bool, seen: bool, b: u8) -> Tail
    ensures { result ≡ value_step orcpt seen b }
{
    if is_value_byte(b, orcpt) {
        return Tail::Value(orcpt, seen);
    }
    if b == 32 {
        return Tail::Due(seen);
    }
    Tail::Off
}

impl LineForm for Tail {
    ghost form = { tail };

    fn step(self, b: u8) -> Tail
        ensures { result ≡ tail_step self b }
    {
        match self {
            Tail::Start => start_step(b),
            Tail::Due(seen) => due_step(seen, b),
            Tail::Key(alt, orcpt, seen) => key_step(alt, orcpt, seen, b),
            Tail::Equals(orcpt, seen) => equals_step(orcpt, seen, b),
            Tail::Value(orcpt, seen) => value_step(orcpt, seen, b),
            Tail::Off => Tail::Off,
        }
    }

    fn is_done(self) -> bool
        ensures { result ≡ tail_done self }
    {
        match self {
            Tail::Start | Tail::Value(_, _) => true,
            Tail::Key(alt, _, _) => !(alt == 11),
            Tail::Due(_) | Tail::Equals(_, _) | Tail::Off => false,
        }
    }

    fn is_live(self) -> bool
        ensures { result ≡ tail_live self }
    {
        !matches!(self, Tail::Off)
    }

    fn need(self) -> usize
        ensures { (result ≡ tail_need self) × (result ≤ 1) }
    {
        match self {
            Tail::Start | Tail::Value(_, _) | Tail::Off => 0,
            Tail::Key(alt, _, _) => usize::from(alt == 11),
            Tail::Due(_) => 1,
            Tail::Equals(_, _) => 1,
        }
    }
}
