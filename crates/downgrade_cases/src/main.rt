// Prints what the downgrade call answers: for each case a label, number, place and both lengths, whether the buffers are as they
// were (after a refusal) or are so past the lengths (after 0), and what was written. The cases stand in `stdin`.
#![tactic(auto)]

use std::io;

// Whether two buffers that were full of # are so from places on.
fn both_untouched(envelope: &[u8], n: usize, header: &[u8], m: usize) -> bool {
    case_line::is_untouched(line::part(envelope, n, envelope.len()))
        & case_line::is_untouched(line::part(header, m, header.len()))
}

fn show_refusal(rt: &impl Print, envelope: &[u8], header: &[u8]) -> io::Result<()> {
    if both_untouched(envelope, 0, header, 0) {
        print!(rt; ", buffers untouched\r\n")
    } else {
        print!(rt; ", BUFFERS CHANGED\r\n")
    }
}

fn show_written(
    rt: &impl Print,
    envelope: &[u8],
    n: usize,
    header: &[u8],
    m: usize,
) -> io::Result<()> {
    if both_untouched(envelope, n, header, m) {
        print!(rt; ", rest untouched\r\n")?;
    } else {
        print!(rt; ", REST CHANGED\r\n")?;
    }
    rt.write_all(line::part(envelope, 0, n))?;
    print!(rt; "\r\n")?;
    rt.write_all(line::part(header, 0, m))?;
    print!(rt; "\r\n")
}

fn show_numbers(rt: &impl Print, no: u32, place: usize, n: usize, m: usize) -> io::Result<()> {
    print!(rt; ": {no} at {place}, lengths {n} and {m}")
}

// A call that is lent the first n and the first m bytes of two buffers full of #.
fn call(
    setting: usize,
    envelope: &[u8],
    header: &[u8],
    envelope_space: &mut [u8],
    n: usize,
    header_space: &mut [u8],
    m: usize,
) -> call::Answer {
    let envelope_end = case_line::room(n, envelope_space);
    let header_end = case_line::room(m, header_space);
    hennelaku::hennelaku_downgrade_slices(
        setting as u64,
        envelope,
        header,
        &mut envelope_space[..envelope_end],
        &mut header_space[..header_end],
    )
}

// A case with buffers of n and m bytes.
fn show(
    rt: &impl Print,
    label: &[u8],
    setting: usize,
    envelope: &[u8],
    header: &[u8],
    n: usize,
    m: usize,
) -> io::Result<()> {
    let mut envelope_space = [b'#'; 256];
    let mut header_space = [b'#'; 1024];
    let answer = call(
        setting,
        envelope,
        header,
        &mut envelope_space,
        n,
        &mut header_space,
        m,
    );
    let envelope_len = answer.envelope_len;
    let header_len = answer.header_len;
    rt.write_all(label)?;
    show_numbers(rt, answer.number, answer.place, envelope_len, header_len)?;
    if answer.number == 0 {
        show_written(rt, &envelope_space, envelope_len, &header_space, header_len)
    } else {
        show_refusal(rt, &envelope_space, &header_space)
    }
}

// A line of the input.
fn show_line(rt: &impl Print, line: &[u8]) -> io::Result<()> {
    if !case_line::is_case(line) {
        return Ok(());
    }
    let mut envelope = [0u8; 16385];
    let mut header = [0u8; 32769];
    let n = case_line::undo(&mut envelope, case_line::column(line, 3));
    let m = case_line::undo(&mut header, case_line::column(line, 4));
    show(
        rt,
        case_line::column(line, 0),
        case_line::number(case_line::column(line, 5)),
        &envelope[..n],
        &header[..m],
        case_line::number(case_line::column(line, 1)),
        case_line::number(case_line::column(line, 2)),
    )
}

// Kept: one loop for all programs would take a closure, and a public function may not require that it can be called.
fn main(rt: HostRuntime) -> io::Result<()> {
    let input = program_input::read(rt.alloc(), rt.reader(), 65536)?;
    for line in input.split(|b| *b == b'\n') {
        show_line(&rt, line)?;
    }
    Ok(())
}
