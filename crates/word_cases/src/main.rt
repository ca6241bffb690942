// Prints rows of encoded words: for each case a label, the row as it is written, and the length that is answered for it; and texts in
// base64. The cases stand in `stdin`.
#![tactic(auto)]

use std::io;

// Kept: two lines; a public function that prints would have to say what it prints.
fn verdict(rt: &impl Print, ok: bool) -> io::Result<()> {
    if ok {
        print!(rt; "the same")
    } else {
        print!(rt; "OTHER")
    }
}

// Whether the front of a buffer that is full of #, lent as long as a row, gets that row for the text, and the bytes after it stay.
fn exact(spare: &mut [u8], text: &[u8], row: &[u8]) -> bool {
    let end = case_line::room(row.len(), spare);
    let n = encoded_word::write(&mut spare[..end], text);
    (n == row.len()) & case_line::holds(spare, row, end)
}

// A case: its label, its row, the length answered, and whether len and a buffer of just that length agree.
fn show(rt: &impl Print, label: &[u8], text: &[u8]) -> io::Result<()> {
    let mut out = [0u8; 2048];
    let mut spare = [b'#'; 2049];
    let n = encoded_word::write(&mut out, text);
    let row = line::part(&out, 0, n);
    rt.write_all(label)?;
    rt.write_all(row)?;
    print!(rt; "\r\n{n}, len ")?;
    verdict(rt, encoded_word::len(text) == n)?;
    print!(rt; ", exact buffer ")?;
    verdict(rt, exact(&mut spare, text, row))?;
    print!(rt; "\r\n")
}

// A case for each front of a text, from a length on and each time by a step longer.
fn show_fronts(
    rt: &impl Print,
    label: &[u8],
    text: &[u8],
    first: usize,
    step: usize,
) -> io::Result<()> {
    if step == 0 {
        return Ok(());
    }
    let mut end = first;
    while end <= text.len() {
        rt.write_all(label)?;
        print!(rt; ", {end}")?;
        show(rt, b" bytes", line::part(text, 0, end))?;
        if text.len() - end < step {
            return Ok(());
        }
        end += step;
    }
    Ok(())
}

// The row of a text into the front of a buffer: all of the buffer afterwards, the length answered, and whether the byte after the
// part that was lent is the # that it was.
fn show_buffer(rt: &impl Print, out: &mut [u8], text: &[u8], size: usize) -> io::Result<()> {
    let end = case_line::room(size, out);
    let n = encoded_word::write(&mut out[..end], text);
    print!(rt; "buffer of {end}: ")?;
    rt.write_all(out)?;
    print!(rt; "\r\n{n}, guard ")?;
    verdict(rt, line::byte_at(out, end) == b'#')?;
    print!(rt; "\r\n")
}

// A text in base64.
fn show_digits(rt: &impl Print, label: &[u8], text: &[u8]) -> io::Result<()> {
    let mut out = [0u8; 2048];
    let n = base64_digits::add(&mut out, 0, text);
    rt.write_all(label)?;
    print!(rt; ": ")?;
    rt.write_all(line::part(&out, 0, n))?;
    print!(rt; "\r\n")
}

// A line of the input; where it is a case, the first letter of its kind tells what is shown.
// Kept: the letter is the case's own column, and each kind takes other columns.
fn show_line(rt: &impl Print, line: &[u8]) -> io::Result<()> {
    if !case_line::is_case(line) {
        return Ok(());
    }
    let mut space = [0u8; 1024];
    let mut out = [b'#'; 100];
    let n = case_line::undo(&mut space, case_line::column(line, 2));
    let text = &space[..n];
    let label = case_line::column(line, 1);
    let first = case_line::number(case_line::column(line, 3));
    let step = case_line::number(case_line::column(line, 4));
    match line::byte_at(line, 0) {
        b't' => show(rt, label, text),
        b'f' => show_fronts(rt, label, text, first, step),
        b'b' => show_buffer(rt, &mut out, text, first),
        b'd' => show_digits(rt, label, text),
        _ => print!(rt; "NO KIND OF CASE\r\n"),
    }
}

// Kept: one loop for all programs would take a closure, and a public function may not require that it can be called.
fn main(rt: HostRuntime) -> io::Result<()> {
    let input = program_input::read(rt.alloc(), rt.reader(), 65536)?;
    for line in input.split(|b| *b == b'\n') {
        show_line(&rt, line)?;
    }
    Ok(())
}
