// Reads the header of a stored message from standard input and prints what becomes of it for a program that knows only ASCII: 0 and the
// length, then the header; or the number and the place of a refusal. Lines end in CRLF.
#![tactic(auto)]

use std::io;

// A number, and a place or the length.
fn print_numbers(rt: &impl Print, no: u32, n: usize) -> io::Result<()> {
    print!(rt; "{no} {n}\r\n")
}

fn downgrade(rt: &impl Print, header: &[u8], buffer: &mut [u8; 2642040]) -> io::Result<()> {
    let answer = hennelaku::hennelaku_downgrade_mailbox_slices(header, buffer);
    let no = answer.number;
    let n = answer.length;
    if no == 0 {
        print_numbers(rt, no, n)?;
        rt.write_all(line::part(buffer, 0, n))
    } else {
        print_numbers(rt, no, answer.place)
    }
}

// The buffer holds every output: a header of 32,768 bytes grows at most eightyfold.
fn downgrade_input(rt: &impl Print, header: &[u8]) -> io::Result<()> {
    let mut buffer = [0u8; 2642040];
    downgrade(rt, header, &mut buffer)
}

// An input that does not fit the buffer is over the limit, and so is the part of it that does.
fn main(rt: HostRuntime) -> io::Result<()> {
    let input = program_input::read(rt.alloc(), rt.reader(), 65536)?;
    downgrade_input(&rt, &input)
}
