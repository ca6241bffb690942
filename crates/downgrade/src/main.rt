// Reads an envelope, an empty line and a header from standard input, and prints what becomes of them: number and lengths, then the
// envelope, an empty line and the header; or the number and the place of a refusal. Lines end in CRLF. The message is one from the spool.
#![tactic(auto)]

use std::io;

// Where the first empty line starts: a CRLF at the very start, or one straight after another. The end where there is none.
fn empty_line(input: &[u8]) -> usize {
    let mut i: usize = 0;
    while i < input.len() {
        let end = line::line_end(input, i);
        if end == i {
            return i;
        }
        i = buffer::place_after(end, 2);
    }
    input.len()
}

// What was written, the first n and the first m bytes of two buffers.
fn print_written(
    rt: &impl Print,
    envelope: &[u8],
    n: usize,
    header: &[u8],
    m: usize,
) -> io::Result<()> {
    print!(rt; "0 {n} {m}\r\n")?;
    rt.write_all(line::part(envelope, 0, n))?;
    print!(rt; "\r\n")?;
    rt.write_all(line::part(header, 0, m))
}

fn print_refusal(rt: &impl Print, no: u32, place: usize) -> io::Result<()> {
    print!(rt; "{no} {place}\r\n")
}

fn downgrade(
    rt: &impl Print,
    envelope: &[u8],
    header: &[u8],
    envelope_buffer: &mut [u8; 16384],
    header_buffer: &mut [u8; 2642040],
) -> io::Result<()> {
    let answer = hennelaku::hennelaku_downgrade_slices(
        0,
        envelope,
        header,
        envelope_buffer,
        header_buffer,
    );
    let no = answer.number;
    let n = answer.envelope_len;
    let m = answer.header_len;
    if no == 0 {
        print_written(rt, envelope_buffer, n, header_buffer, m)
    } else {
        print_refusal(rt, no, answer.place)
    }
}

// The first empty line parts envelope and header; without one all is envelope. The buffers hold every output: an envelope does not
// grow, and a header of 32,768 bytes grows at most eightyfold, and by 20,600.
fn downgrade_input(rt: &impl Print, input: &[u8]) -> io::Result<()> {
    let end = empty_line(input);
    let start = buffer::place_after(end, 2);
    let mut envelope_buffer = [0u8; 16384];
    let mut header_buffer = [0u8; 2642040];
    downgrade(
        rt,
        line::part(input, 0, end),
        line::part(input, start, input.len()),
        &mut envelope_buffer,
        &mut header_buffer,
    )
}

// An input that does not fit the buffer is over a limit, and so is the part of it that does: 65,536 bytes are more than both
// limits and the empty line together.
fn main(rt: HostRuntime) -> io::Result<()> {
    let input = program_input::read(rt.alloc(), rt.reader(), 65536)?;
    downgrade_input(&rt, &input)
}
