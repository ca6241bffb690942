// Reads a header from standard input, and prints a line for each of its Downgraded fields: 0, a space and its text, or the number of its refusal. Lines end in CRLF.
#![tactic(auto)]

use std::io;

// A field's line.
fn show(rt: &impl Print, number: u32, text: &[u8]) -> io::Result<()> {
    print!(rt; "{number}")?;
    if number == 0 {
        print!(rt; " ")?;
        rt.write_all(text)?;
    }
    print!(rt; "\r\n")
}

fn show_fields(rt: &impl Print, header: &[u8], buffer: &mut [u8; 2642040]) -> io::Result<()> {
    let mut place: usize = 0;
    while place < header.len() {
        let answer = downgraded_reader::answer(header, place, buffer);
        let number = answer.number;
        let next = answer.next;
        let size = answer.length;
        if number == 6 {
            return Ok(());
        }
        if next <= place {
            return Ok(());
        }
        show(rt, number, line::part(buffer, 0, size))?;
        place = next;
    }
    Ok(())
}

// No text is longer than its field, so that a buffer as long as the input's holds every text.
fn show_header(rt: &impl Print, header: &[u8]) -> io::Result<()> {
    let mut buffer = [0u8; 2642040];
    show_fields(rt, header, &mut buffer)
}

// No header that we write has more bytes than the buffer. Of a longer input nothing is shown.
fn show_input(rt: &(impl Print + Eprint), input: &[u8]) -> io::Result<()> {
    if 2642040 < input.len() {
        eprintln!(rt; "read_downgraded: a header has at most 2,642,040 bytes")
    } else {
        show_header(rt, input)
    }
}

fn main(rt: HostRuntime) -> io::Result<()> {
    let input = program_input::read(rt.alloc(), rt.reader(), 2642041)?;
    show_input(&rt, &input)
}
