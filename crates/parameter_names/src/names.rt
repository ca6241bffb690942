// Names that stand one after another, each with a `=`.
ghost use Rattle.std.specs.Prelude.{◌≡◌, not, ◌+◌, drop};
ghost use Rattle.lists.specs.CutBy.{cut_by};
ghost use Rattle.lists.specs.Lists.{all};
ghost use Rattle.letter_case.specs.LetterCase.{same_any_case};
ghost use Rattle.parameter_names.specs.Names.{distinct, marked_len};
ghost use Rattle.parameter_names.specs.KeysLaws.{key_of, KeysAt};

use crate::keys::{fill_keys, is_absent};

// Where the name at a place ends, with its `=`.
pub(crate) fn marked_end(s: &[u8], at: usize) -> usize
    ensures { result ≡ at + marked_len (drop at s.now) }
{
    let end = field_parameter::token_end(s, at);
    if s.len() <= end {
        return end;
    }
    end + 1
}

// Whether a name is none of those from a place on.
fn is_new(name: &[u8], s: &[u8], at: usize) -> bool
    ensures { result ≡ all (λ other. not (same_any_case name.now other)) (cut_by marked_len (drop at s.now)) }
{
    let mut i = at;
    while i < s.len() {
        let end = marked_end(s, i);
        if letter_case::same_any_case(name, &s[i..end]) {
            return false;
        }
        i = end;
    }
    true
}

// Kept: beside `keyed_differ`, since one loop for both would look for a key at each name, and handle names that have none.
fn all_differ(s: &[u8]) -> bool
    ensures { result ≡ distinct (cut_by marked_len s.now) }
{
    let mut i: usize = 0;
    while i < s.len() {
        let end = marked_end(s, i);
        if !is_new(&s[i..end], s, end) {
            return false;
        }
        i = end;
    }
    true
}

// Whether a name is none of those from a place on, whose keys these are.
fn is_other(name: &[u8], s: &[u8], at: usize, keys: &[u32], key: u32) -> bool
    requires { KeysAt s.now at keys.now × (key ≡ key_of name.now) }
    ensures { result ≡ all (λ other. not (same_any_case name.now other)) (cut_by marked_len (drop at s.now)) }
{
    if is_absent(keys, key) {
        return true;
    }
    is_new(name, s, at)
}

// Whether names differ whose keys these are.
fn keyed_differ(s: &[u8], keys: &[u32]) -> bool
    requires { KeysAt s.now 0 keys.now }
    ensures { result ≡ distinct (cut_by marked_len s.now) }
{
    let mut i: usize = 0;
    for (n, key) in keys.iter().enumerate() {
        let end = marked_end(s, i);
        if !is_other(&s[i..end], s, end, &keys[n + 1..], *key) {
            return false;
        }
        i = end;
    }
    true
}

// Whether names differ that stand one after another, each with a `=`. They are told apart by their keys, where there is room for those.
pub fn names_differ(s: &[u8]) -> bool
    ensures { result ≡ distinct (cut_by marked_len s.now) }
{
    let mut keys = [0u32; 8192];
    match fill_keys(&mut keys, s) {
        Some(n) => keyed_differ(s, &keys[..n]),
        None => all_differ(s),
    }
}
