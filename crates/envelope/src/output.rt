// The writing pass. It goes by the line starts that the checking pass stored.
ghost use Rattle.std.specs.Prelude.{drop};
ghost use Rattle.buffer.specs.Buffer.{AppendedCapped};
ghost use Rattle.envelope.specs.Envelope.{line_text, written_ended, written_of, mail_replacement, only_rcpt_of};
ghost use Rattle.envelope.specs.LineStarts.{texts_at};

// Writes the line that starts at a place of the envelope.
fn add_line_at(out: &mut [u8], next: usize, envelope: &[u8], at: usize, mail: bool) -> usize
    ensures { AppendedCapped (written_ended mail (line_text (drop at envelope.now))) next out.old out.new result }
{
    let end = line::line_end(envelope, at);
    envelope_line::add_line(out, next, line::part(envelope, at, end), mail)
}

// Writes the envelope whose RCPT lines, `count` of them, start at `starts`.
pub fn put(out: &mut [u8], envelope: &[u8], starts: &[usize; 100], count: usize) -> usize
    ensures { AppendedCapped (written_of (texts_at count starts.now envelope.now)) 0 out.old out.new result }
{
    let n = buffer::clip(count, 100);
    let mut next = add_line_at(out, 0, envelope, 0, true);
    for at in &starts[..n] {
        next = add_line_at(out, next, envelope, *at, false);
    }
    next
}

// Writes `<old <new>>` of the MAIL line where its path is replaced, and nothing where not.
pub fn put_mail_replacement(out: &mut [u8], envelope: &[u8]) -> usize
    ensures { AppendedCapped (mail_replacement envelope.now) 0 out.old out.new result }
{
    let end = line::line_end(envelope, 0);
    envelope_line::add_replacement(out, 0, line::part(envelope, 0, end), true)
}

// The same of the RCPT line, where there is exactly one.
pub fn put_rcpt_replacement(
    out: &mut [u8],
    envelope: &[u8],
    starts: &[usize; 100],
    count: usize,
) -> usize
    ensures { AppendedCapped (only_rcpt_of (texts_at count starts.now envelope.now)) 0 out.old out.new result }
{
    if count != 1 {
        return 0;
    }
    let at = starts[0];
    let end = line::line_end(envelope, at);
    envelope_line::add_replacement(out, 0, line::part(envelope, at, end), false)
}
