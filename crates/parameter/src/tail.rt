// The parameters of a line's tail, by place.
ghost use Rattle.std.specs.Prelude.{◌≡◌, ◌+◌, not, Bool, List, ℕ, length, drop};
ghost use Rattle.lists.specs.Lists.{all};
ghost use Rattle.lists.specs.Run.{run};
ghost use Rattle.parameter.specs.Parameter.{not_space, params, spaced, is_param, is_alt as names_alt, orcpt_clean, alt_place};
ghost use Rattle.parameter.specs.First.{first_of, in_line};

use crate::{is_alt, is_orcpt_clean, is_param};
use byte_class::{Class, run_end};
use line::part;

struct NotSpace;

impl Class for NotSpace {
    ghost member = { not_space };

    fn holds(b: u8) -> bool {
        b != 32
    }
}

// Where the parameter that starts at a place ends: at the next space or at the end.
pub fn param_end(line: &[u8], at: usize) -> usize
    ensures { result ≡ at + run not_space (drop at line.now) }
{
    run_end::<NotSpace>(line, at)
}

// Whether the rest of a line from a place on is empty or starts with a space.
pub fn is_spaced(line: &[u8], at: usize) -> bool
    ensures { result ≡ spaced (drop at line.now) }
{
    if at < line.len() {
        line[at] == 32
    } else {
        true
    }
}

// A test of a parameter.
trait Test {
    ghost meets: { List ℕ → Bool };

    fn holds(p: &[u8]) -> bool
        ensures { result ≡ meets p.now };
}

// What is no parameter.
struct Unformed;

impl Test for Unformed {
    ghost meets = { λ p. not (is_param p) };

    fn holds(p: &[u8]) -> bool {
        !is_param(p)
    }
}

// An ORCPT with non-ASCII in its value.
struct HighOrcpt;

impl Test for HighOrcpt {
    ghost meets = { λ p. not (orcpt_clean p) };

    fn holds(p: &[u8]) -> bool {
        !is_orcpt_clean(p)
    }
}

struct AltAddress;

impl Test for AltAddress {
    ghost meets = { names_alt };

    fn holds(p: &[u8]) -> bool {
        is_alt(p)
    }
}

// The first parameter from a place on that meets a test, by the place of the space before it.
fn first<T: Test>(line: &[u8], at: usize) -> Option<usize>
    ensures { result ≡ first_of T.meets at (params (drop at line.now)) }
{
    let mut i = at;
    while i < line.len() {
        let start = i + 1;
        let end = param_end(line, start);
        if T::holds(part(line, start, end)) {
            return Some(i);
        }
        i = end;
    }
    None
}

// Whether what stands after each space from a place on is a parameter.
pub fn are_params(line: &[u8], at: usize) -> bool
    ensures { result ≡ all is_param (params (drop at line.now)) }
{
    first::<Unformed>(line, at).is_none()
}

// Whether no parameter from a place on is an ORCPT with non-ASCII in its value.
pub fn are_orcpt_clean(line: &[u8], at: usize) -> bool
    ensures { result ≡ all orcpt_clean (params (drop at line.now)) }
{
    first::<HighOrcpt>(line, at).is_none()
}

// The place of the space before the first ALT-ADDRESS parameter from a place on.
pub fn alt_place(line: &[u8], at: usize) -> Option<usize>
    ensures { result ≡ in_line line.now (at + alt_place (params (drop at line.now))) }
{
    first::<AltAddress>(line, at)
}
