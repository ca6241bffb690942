// A parameter of a line of an envelope: a keyword, and maybe `=` with a value.
#![tactic(auto)]

mod tail;

ghost use Rattle.std.specs.Prelude.{◌≡◌, ◌+◌, min, drop};
ghost use Rattle.lists.specs.Lists.{all};
ghost use Rattle.buffer.specs.Buffer.{greatest};
ghost use Rattle.parameter.specs.Parameter.{is_keyword_byte, keyword_len, value, is_orcpt as names_orcpt, is_alt as names_alt, is_value_byte, is_param, orcpt_clean};

use byte_class::{Class, are_all, run_end};
use letter_case::same_any_case;
use line::part;
pub use tail::{alt_place, are_orcpt_clean, are_params, is_spaced, param_end};

// Whether a byte is a letter, a digit or a hyphen. Without branches.
pub fn is_keyword_byte(b: u8) -> bool
    ensures { result ≡ is_keyword_byte b }
{
    ((65 <= b) & (b <= 90)) | ((97 <= b) & (b <= 122)) | ((48 <= b) & (b <= 57)) | (b == 45)
}

struct KeywordByte;

impl Class for KeywordByte {
    ghost member = { is_keyword_byte };

    fn holds(b: u8) -> bool {
        is_keyword_byte(b)
    }
}

// The length of a parameter's keyword.
#[tactic(auto, unfolding(crate::specs::Parameter::keyword_len))]
pub fn keyword_len(p: &[u8]) -> usize
    ensures { result ≡ keyword_len p.now }
{
    run_end::<KeywordByte>(p, 0)
}

// Where a parameter's value starts, past its keyword and the byte after it.
pub fn value_start(p: &[u8]) -> usize
    ensures { (result ≡ min (keyword_len p.now + 1) greatest) × (drop result p.now ≡ value p.now) }
{
    buffer::place_after(keyword_len(p), 1)
}

// Whether a parameter's keyword is ORCPT.
fn is_orcpt(p: &[u8]) -> bool
    ensures { result ≡ names_orcpt p.now }
{
    same_any_case(b"ORCPT", part(p, 0, keyword_len(p)))
}

// Whether it is ALT-ADDRESS.
pub(crate) fn is_alt(p: &[u8]) -> bool
    ensures { result ≡ names_alt p.now }
{
    same_any_case(b"ALT-ADDRESS", part(p, 0, keyword_len(p)))
}

// Whether a byte may stand in a value. Without branches.
pub fn is_value_byte(b: u8, orcpt: bool) -> bool
    ensures { result ≡ is_value_byte orcpt b }
{
    ((33 <= b) & (b <= 126) & !(b == 61)) | (orcpt & (128 <= b))
}

struct ValueByte<const ORCPT: bool>;

impl<const ORCPT: bool> Class for ValueByte<ORCPT> {
    ghost member = { is_value_byte ORCPT };

    fn holds(b: u8) -> bool {
        is_value_byte(b, ORCPT)
    }
}

// Whether all bytes of a value may stand there.
fn is_value(v: &[u8], orcpt: bool) -> bool
    ensures { result ≡ all (is_value_byte orcpt) v.now }
{
    if orcpt {
        are_all::<ValueByte<true>>(v)
    } else {
        are_all::<ValueByte<false>>(v)
    }
}

// Whether a text between spaces is a parameter.
pub(crate) fn is_param(p: &[u8]) -> bool
    ensures { result ≡ is_param p.now }
{
    let k = keyword_len(p);
    if k == 0 {
        return false;
    }
    if p[0] == b'-' {
        return false;
    }
    if p.len() <= k {
        return true;
    }
    if p[k] != b'=' {
        return false;
    }
    let start = k + 1;
    if p.len() <= start {
        return false;
    }
    is_value(part(p, start, p.len()), is_orcpt(p))
}

// Whether a parameter is no ORCPT with non-ASCII in its value.
pub(crate) fn is_orcpt_clean(p: &[u8]) -> bool
    ensures { result ≡ orcpt_clean p.now }
{
    if !is_orcpt(p) {
        return true;
    }
    utf8::is_ascii(part(p, value_start(p), p.len()))
}
