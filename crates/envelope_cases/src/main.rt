// Prints what becomes of envelopes: for each case a label, and the number of its refusal with the line; or 0 and the number of
// RCPT lines, the line of an ORCPT that carries non-ASCII, the envelope as it is written, and the texts for the header. The cases stand in
// `stdin`, most with no column for the setting, which then is 0.
#![tactic(auto)]

use envelope_line::Fault;
use rules::Rules;
use std::io;

// Kept: two lines; a public function that prints would have to say what it prints.
fn verdict(rt: &impl Print, ok: bool) -> io::Result<()> {
    if ok {
        print!(rt; "the same")
    } else {
        print!(rt; "OTHER")
    }
}

// The scope paper's number of a fault.
fn fault_number(fault: Fault) -> usize {
    match fault {
        Fault::Malformed => 2,
        Fault::NoAlternative => 3,
        Fault::BadAlternative => 4,
        Fault::RetiredAlternative => 10,
    }
}

// A refusal: its number and its line.
fn refused(rt: &impl Print, no: usize, line: usize) -> io::Result<()> {
    print!(rt; "{no} at line {line}\r\n")
}

// Whether an ORCPT carries non-ASCII, which is refusal 6.
fn orcpt(rt: &impl Print, envelope: &[u8]) -> io::Result<()> {
    print!(rt; "ORCPT: ")?;
    match envelope::orcpt_line(envelope) {
        None => print!(rt; "clean\r\n"),
        Some(line) => refused(rt, 6, line),
    }
}

// Whether the front of a buffer that is full of #, lent `size` bytes long, is filled with the front of the whole output, the
// whole length is answered, and the bytes after the part that was lent stay.
fn filled(
    spare: &mut [u8],
    envelope: &[u8],
    starts: &[usize; 100],
    count: usize,
    whole: &[u8],
    size: usize,
) -> bool {
    let end = case_line::room(size, spare);
    let n = envelope::put(&mut spare[..end], envelope, starts, count);
    (n == whole.len()) & case_line::holds(spare, whole, end)
}

// The same in a buffer of its own.
fn fits(envelope: &[u8], starts: &[usize; 100], count: usize, whole: &[u8], size: usize) -> bool {
    let mut spare = [b'#'; 4096];
    filled(&mut spare, envelope, starts, count, whole, size)
}

// Whether every shorter buffer is filled with the front of the whole output.
fn all_shorter(envelope: &[u8], starts: &[usize; 100], count: usize, whole: &[u8]) -> bool {
    for size in 0..whole.len() {
        if !fits(envelope, starts, count, whole, size) {
            return false;
        }
    }
    true
}

// The whole output, its length, and whether a buffer of just that length and all shorter ones agree.
fn output(
    rt: &impl Print,
    envelope: &[u8],
    starts: &[usize; 100],
    count: usize,
    whole: &[u8],
) -> io::Result<()> {
    rt.write_all(whole)?;
    print!(rt; "{} bytes, exact buffer ", whole.len())?;
    verdict(rt, fits(envelope, starts, count, whole, whole.len()))?;
    print!(rt; ", shorter buffers ")?;
    verdict(rt, all_shorter(envelope, starts, count, whole))?;
    print!(rt; "\r\n")
}

// The envelope as it is written.
fn written(
    rt: &impl Print,
    envelope: &[u8],
    starts: &[usize; 100],
    count: usize,
) -> io::Result<()> {
    let mut out = [b'#'; 4096];
    let n = envelope::put(&mut out, envelope, starts, count);
    output(rt, envelope, starts, count, line::part(&out, 0, n))
}

// A text of n bytes at the front of a buffer.
fn text(rt: &impl Print, label: &[u8], out: &[u8], n: usize) -> io::Result<()> {
    rt.write_all(label)?;
    if n == 0 {
        return print!(rt; "none\r\n");
    }
    rt.write_all(line::part(out, 0, n))?;
    print!(rt; ", {n} bytes\r\n")
}

// The texts `<old <new>>` for the header.
fn replacements(
    rt: &impl Print,
    envelope: &[u8],
    starts: &[usize; 100],
    count: usize,
) -> io::Result<()> {
    let mut out = [b'#'; 4096];
    let m = envelope::put_mail_replacement(&mut out, envelope);
    text(rt, b"MAIL: ", &out, m)?;
    let r = envelope::put_rcpt_replacement(&mut out, envelope, starts, count);
    text(rt, b"RCPT: ", &out, r)
}

// A case.
fn show(rt: &impl Print, label: &[u8], rules: Rules, envelope: &[u8]) -> io::Result<()> {
    rt.write_all(label)?;
    print!(rt; ": ")?;
    let mut starts = [0usize; 100];
    match envelope::check(rules, envelope, &mut starts) {
        Err(at) => refused(rt, fault_number(at.fault), at.line),
        Ok(count) => {
            print!(rt; "0, RCPT lines {count}\r\n")?;
            orcpt(rt, envelope)?;
            written(rt, envelope, &starts, count)?;
            replacements(rt, envelope, &starts, count)
        }
    }
}

// A line of the input. Kept: each program has its own columns and calls its own `show`.
fn show_line(rt: &impl Print, line: &[u8]) -> io::Result<()> {
    if !case_line::is_case(line) {
        return Ok(());
    }
    let mut envelope = [0u8; 4096];
    let n = case_line::undo(&mut envelope, case_line::column(line, 1));
    let setting = case_line::number(case_line::column(line, 2));
    let rules = rules::of_setting(setting as u64);
    show(rt, case_line::column(line, 0), rules, &envelope[..n])
}

// Kept: one loop for all programs would take a closure, and a public function may not require that it can be called.
fn main(rt: HostRuntime) -> io::Result<()> {
    let input = program_input::read(rt.alloc(), rt.reader(), 65536)?;
    for line in input.split(|b| *b == b'\n') {
        show_line(&rt, line)?;
    }
    Ok(())
}
