// Prints what the call for a mailbox answers: for each case a label, number, place, offset and length, whether the buffer is as it was
// (after a refusal) or is so past the length (after 0), and what was written. The cases stand in `stdin`.
#![tactic(auto)]

use std::io;

fn show_numbers(rt: &impl Print, no: u32, place: usize, offset: usize, n: usize) -> io::Result<()> {
    print!(rt; ": {no} at {place}, offset {offset}, length {n}")
}

// Whether a buffer that was full of # is so from a place on, and what stands before it.
fn show_buffer(rt: &impl Print, buffer: &[u8], n: usize) -> io::Result<()> {
    if case_line::is_untouched(line::part(buffer, n, buffer.len())) {
        print!(rt; ", rest untouched\r\n")?;
    } else {
        print!(rt; ", REST CHANGED\r\n")?;
    }
    rt.write_all(line::part(buffer, 0, n))?;
    print!(rt; "\r\n")
}

// A call that is lent the first n bytes of a buffer full of #.
fn call(header: &[u8], space: &mut [u8], n: usize) -> outgoing_header::HeaderAnswer {
    let end = case_line::room(n, space);
    hennelaku::hennelaku_downgrade_mailbox_slices(header, &mut space[..end])
}

// A case with a buffer of n bytes.
fn show(rt: &impl Print, label: &[u8], header: &[u8], n: usize) -> io::Result<()> {
    let mut space = [b'#'; 4096];
    let answer = call(header, &mut space, n);
    let len = answer.length;
    rt.write_all(label)?;
    show_numbers(rt, answer.number, answer.place, answer.offset, len)?;
    show_buffer(rt, &space, len)
}

// A line of the input.
fn show_line(rt: &impl Print, line: &[u8]) -> io::Result<()> {
    if !case_line::is_case(line) {
        return Ok(());
    }
    let mut header = [0u8; 32769];
    let n = case_line::undo(&mut header, case_line::column(line, 2));
    show(
        rt,
        case_line::column(line, 0),
        &header[..n],
        case_line::number(case_line::column(line, 1)),
    )
}

// Kept: one loop for all programs would take a closure, and a public function may not require that it can be called.
fn main(rt: HostRuntime) -> io::Result<()> {
    let input = program_input::read(rt.alloc(), rt.reader(), 65536)?;
    for line in input.split(|b| *b == b'\n') {
        show_line(&rt, line)?;
    }
    Ok(())
}
