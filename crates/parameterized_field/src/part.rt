// What stands at a place of a value: a parameter, or a token.
ghost use Rattle.std.specs.Prelude.{◌≡◌, true, ◌≤◌, ◌<◌, length};
ghost use Rattle.buffer.specs.Buffer.{AppendedCapped};
ghost use Rattle.mime_parameter.specs.Pieces.{value_text};
ghost use Rattle.field_parameter.specs.Parameter.{is_converted, value_of};
ghost use Rattle.parameterized_field.specs.Part.{is_parameter, converts, token_kind};
ghost use Rattle.parameterized_field.specs.Value.{start as at_start, after_parameter, after_token, stays_after, semicolon_kind, dropped};
ghost use Rattle.parameterized_field.specs.StepLaws.{TookToken, TookPart, part_next};

use crate::State;
use structured_token::{Kind, Token};

// A parameter that is converted, one that stays as it came, or a token.
#[derive(Clone, Copy, Debug, PartialEq, Eq)]
pub(crate) enum PartKind {
    Converted,
    Stays,
    Token(Kind),
}

pub(crate) fn start() -> State
    ensures { result ≡ at_start }
{
    State {
        comments: true,
        after: false,
        fresh: false,
        own: false,
    }
}

#[inline(always)]
fn token_part(s: &[u8], at: usize, comments: bool) -> Token<PartKind>
    requires { at < length s.now }
    ensures { TookToken comments s.now at (is_parameter result.kind) (token_kind result.kind) result.end }
{
    let Token { kind, end } = structured_token::token_at(s, at, comments);
    let kind = PartKind::Token(kind);
    Token { kind, end }
}

fn parameter_kind(parameter: &[u8]) -> PartKind
    ensures parameter { is_parameter result ≡ true }
    ensures converted { converts result ≡ is_converted parameter.now }
{
    if field_parameter::is_converted(parameter) {
        PartKind::Converted
    } else {
        PartKind::Stays
    }
}

#[inline(always)]
pub(crate) fn part_at(s: &[u8], at: usize, state: State) -> Token<PartKind>
    requires { at < length s.now }
    ensures { TookPart state s.now at (is_parameter result.kind) (converts result.kind) (token_kind result.kind) result.end }
{
    let comments = state.comments;
    if !state.after {
        return token_part(s, at, comments);
    }
    match field_parameter::parameter_end(s, at, comments) {
        Some(end) => {
            let kind = parameter_kind(&s[at..end]);
            Token { kind, end }
        }
        None => token_part(s, at, comments),
    }
}

pub(crate) fn is_semicolon(kind: Kind) -> bool
    ensures { result ≡ semicolon_kind kind }
{
    matches!(kind, Kind::Semicolon)
}

// Whether a `;` is still the last thing but white space, folds and comments.
fn stays_after(after: bool, kind: Kind) -> bool
    ensures { result ≡ stays_after after kind }
{
    match kind {
        Kind::Semicolon => true,
        Kind::Comment | Kind::White | Kind::End => after,
        Kind::Quoted | Kind::Open | Kind::Plain => false,
    }
}

fn after_parameter(state: State, converted: bool) -> State
    ensures { result ≡ after_parameter state converted }
{
    State {
        comments: state.comments,
        after: false,
        fresh: converted,
        own: converted,
    }
}

fn after_token(state: State, kind: Kind) -> State
    ensures { result ≡ after_token state kind }
{
    let white = structured_token::is_white_space(kind);
    let mark = is_semicolon(kind) & state.own;
    State {
        comments: structured_token::goes_on(state.comments, kind),
        after: stays_after(state.after, kind),
        fresh: state.fresh & (white | mark),
        own: state.own & white,
    }
}

#[inline(always)]
#[tactic(auto, unfolding(crate::specs::StepLaws::part_next))]
pub(crate) fn next_state(state: State, kind: PartKind) -> State
    ensures { result ≡ part_next state (is_parameter kind) (converts kind) (token_kind kind) }
{
    match kind {
        PartKind::Converted => after_parameter(state, true),
        PartKind::Stays => after_parameter(state, false),
        PartKind::Token(kind) => after_token(state, kind),
    }
}

// Whether a token is white space that goes, before what follows it.
pub(crate) fn is_dropped(state: State, kind: Kind, after: &[u8]) -> bool
    ensures { result ≡ dropped state kind after.now }
{
    let comments = state.comments;
    if !structured_token::is_white_space(kind) {
        return false;
    }
    if state.fresh {
        return true;
    }
    if !state.after {
        return false;
    }
    field_parameter::converted_next(after, 0, comments)
}

// The text of a parameter's value, made at the front of a scratch.
pub(crate) fn make_text(scratch: &mut [u8], parameter: &[u8]) -> usize
    requires { length parameter.now ≤ 32768 }
    ensures { AppendedCapped (value_text (value_of parameter.now)) 0 scratch.old scratch.new result }
{
    let name = field_parameter::token_end(parameter, 0);
    let value = buffer::clip(name + 1, parameter.len());
    mime_parameter::add_value_text(scratch, 0, &parameter[value..])
}
