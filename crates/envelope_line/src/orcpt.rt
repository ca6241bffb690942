// ORCPT, the original recipient, that carries non-ASCII.
ghost use Rattle.std.specs.Prelude.{◌≡◌};
ghost use Rattle.envelope_line.specs.EnvelopeLine.{orcpt_fault};

use crate::path::tail_start;

// Whether a line has an ORCPT that carries non-ASCII.
pub fn orcpt_fault(line: &[u8], mail: bool) -> bool
    ensures { result ≡ orcpt_fault mail line.now }
{
    !parameter::are_orcpt_clean(line, tail_start(line, mail))
}
