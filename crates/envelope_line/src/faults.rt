// The fault of a line.
ghost use Rattle.std.specs.Prelude.{◌≡◌, drop};
ghost use Rattle.envelope_line.specs.EnvelopeLine.{line_fault};
ghost use Rattle.envelope_line.specs.FaultLaws.{only_alt_fault, tail_fault};

use crate::Fault;
use crate::path::{has_verb, path, path_start};
use line::part;
use parameter::{alt_place, are_params, is_spaced, keyword_len, param_end, value_start};
use rules::{Rules, allows_alternative};

// The fault of a line whose parameters are well-formed and of which p is the only ALT-ADDRESS.
fn only_alt_fault(rules: Rules, p: &[u8], ascii: bool) -> Result<(), Fault>
    ensures { result ≡ only_alt_fault rules ascii p.now }
{
    if p.len() <= keyword_len(p) {
        return Err(Fault::Malformed);
    }
    if !allows_alternative(rules) {
        return Err(Fault::RetiredAlternative);
    }
    if ascii {
        return Err(Fault::BadAlternative);
    }
    if xtext::is_alt_address(part(p, value_start(p), p.len())) {
        return Ok(());
    }
    Err(Fault::BadAlternative)
}

// The fault of a line whose verb and path are well-formed, by what follows the path's `>` from a place on.
fn tail_fault(rules: Rules, line: &[u8], at: usize, ascii: bool) -> Result<(), Fault>
    ensures { result ≡ tail_fault rules ascii (drop at line.now) }
{
    if !is_spaced(line, at) {
        return Err(Fault::Malformed);
    }
    if !are_params(line, at) {
        return Err(Fault::Malformed);
    }
    let Some(place) = alt_place(line, at) else {
        if ascii {
            return Ok(());
        }
        return Err(Fault::NoAlternative);
    };
    let start = place + 1;
    let end = param_end(line, start);
    if alt_place(line, end).is_some() {
        return Err(Fault::Malformed);
    }
    only_alt_fault(rules, part(line, start, end), ascii)
}

// The fault of a line.
pub fn line_fault(rules: Rules, line: &[u8], mail: bool) -> Result<(), Fault>
    ensures { result ≡ line_fault rules mail line.now }
{
    if 998 < line.len() {
        return Err(Fault::Malformed);
    }
    if !utf8::is_utf8(line) {
        return Err(Fault::Malformed);
    }
    if !has_verb(line, mail) {
        return Err(Fault::Malformed);
    }
    let Ok(end) = path(line, mail) else {
        return Err(Fault::Malformed);
    };
    if line::byte_at(line, end) != b'>' {
        return Err(Fault::Malformed);
    }
    tail_fault(
        rules,
        line,
        end + 1,
        utf8::is_ascii(part(line, path_start(mail), end)),
    )
}
