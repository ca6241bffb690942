// The checking pass: the first line at fault. It fills the array of line starts that the writing pass uses.
ghost use Rattle.std.specs.Prelude.{◌≡◌, ◌+◌, drop};
ghost use Rattle.line.specs.Line.{line_len};
ghost use Rattle.envelope.specs.Envelope.{ended_fault, fault_of, on_line, counted};
ghost use Rattle.envelope.specs.LineStarts.{EnvelopeChecked};
ghost use Rattle.envelope.specs.CheckLaws.{RcptsChecked};

use crate::FaultAt;
use envelope_line::Fault;
use rules::Rules;

// The fault of the line from `at` up to `end`, where its CRLF is due.
fn front_fault(
    rules: Rules,
    envelope: &[u8],
    at: usize,
    end: usize,
    mail: bool,
) -> Result<(), Fault>
    requires { end ≡ at + line_len (drop at envelope.now) }
    ensures { result ≡ ended_fault rules mail (drop at envelope.now) }
{
    if line::byte_at(envelope, end) != 13 {
        return Err(Fault::Malformed);
    }
    if line::byte_at(envelope, end + 1) != 10 {
        return Err(Fault::Malformed);
    }
    envelope_line::line_fault(rules, line::part(envelope, at, end), mail)
}

// The fault of line n, by the same places.
fn fault_of(rules: Rules, envelope: &[u8], at: usize, end: usize, n: usize) -> Result<(), Fault>
    requires { end ≡ at + line_len (drop at envelope.now) }
    ensures { result ≡ fault_of rules n (drop at envelope.now) }
{
    if 100 < n {
        return Err(Fault::Malformed);
    }
    front_fault(rules, envelope, at, end, n == 0)
}

// Checks line n, by the same places.
fn check_line(rules: Rules, envelope: &[u8], at: usize, end: usize, n: usize) -> Result<(), FaultAt>
    requires { end ≡ at + line_len (drop at envelope.now) }
    ensures { result ≡ on_line n (fault_of rules n (drop at envelope.now)) }
{
    fault_of(rules, envelope, at, end, n).map_err(|fault| FaultAt { fault, line: n })
}

// The answer at the end of an envelope with n RCPT lines.
fn counted(n: usize) -> Result<usize, FaultAt>
    ensures { result ≡ counted (n + 1) }
{
    if n == 0 {
        return Err(FaultAt {
            fault: Fault::Malformed,
            line: 1,
        });
    }
    Ok(n)
}

// The RCPT lines from a place on; their starts are stored.
fn check_rcpts(
    rules: Rules,
    envelope: &[u8],
    at: usize,
    starts: &mut [usize; 100],
) -> Result<usize, FaultAt>
    ensures { RcptsChecked rules envelope.now at starts.old starts.new result }
{
    let mut n: usize = 0;
    let mut i = at;
    while i < envelope.len() {
        let end = line::line_end(envelope, i);
        check_line(rules, envelope, i, end, n + 1)?;
        starts[n] = i;
        n += 1;
        i = end + 2;
    }
    counted(n)
}

// Checks an envelope, and stores where its RCPT lines start, up to the first line at fault. Answers the number of RCPT lines.
pub fn check(rules: Rules, envelope: &[u8], starts: &mut [usize; 100]) -> Result<usize, FaultAt>
    ensures { EnvelopeChecked rules envelope.now starts.old starts.new result }
{
    let end = line::line_end(envelope, 0);
    check_line(rules, envelope, 0, end, 0)?;
    check_rcpts(rules, envelope, end + 2, starts)
}
