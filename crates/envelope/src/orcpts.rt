// ORCPT, the original recipient, that carries non-ASCII.
ghost use Rattle.std.specs.Prelude.{◌≡◌};
ghost use Rattle.envelope.specs.Envelope.{orcpt_line};

// The first line with an ORCPT that carries non-ASCII.
pub fn orcpt_line(envelope: &[u8]) -> Option<usize>
    ensures { result ≡ orcpt_line envelope.now }
{
    let mut n: usize = 0;
    let mut i = 0;
    while i < envelope.len() {
        let end = line::line_end(envelope, i);
        if envelope_line::orcpt_fault(line::part(envelope, i, end), n == 0) {
            return Some(n);
        }
        n += 1;
        i = buffer::place_after(end, 2);
    }
    None
}
