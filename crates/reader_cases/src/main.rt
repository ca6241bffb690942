// Prints what the reader answers: for each case a label, the number, where the field begins, the place after it and a length, the text where there is one, and a mark
// where a byte past the text was changed. The cases stand in `stdin`: a label, the room of the buffer, a header, and a place, which is 0 where it is left out.
#![tactic(auto)]

use std::io;

// A case in a buffer that is full of #.
fn show_in(
    rt: &impl Print,
    label: &[u8],
    header: &[u8],
    place: usize,
    buffer: &mut [u8],
) -> io::Result<()> {
    let answer = downgraded_reader::answer(header, place, buffer);
    let no = answer.number;
    let size = answer.length;
    rt.write_all(label)?;
    print!(rt; ": {}", no as usize)?;
    print!(rt; " from {}", answer.start)?;
    print!(rt; " to {}, {size}", answer.next)?;
    let mut written = 0;
    if no == 0 {
        written = size;
        print!(rt; " [")?;
        rt.write_all(line::part(buffer, 0, size))?;
        print!(rt; "]")?;
    }
    if !case_line::is_untouched(line::part(buffer, written, buffer.len())) {
        print!(rt; " touched")?;
    }
    print!(rt; "\r\n")
}

fn show(rt: &impl Print, label: &[u8], room: usize, header: &[u8], place: usize) -> io::Result<()> {
    let mut buffer = [b'#'; 1024];
    let end = case_line::room(room, &buffer);
    show_in(rt, label, header, place, &mut buffer[..end])
}

// A line of the input.
fn show_line(rt: &impl Print, line: &[u8]) -> io::Result<()> {
    if !case_line::is_case(line) {
        return Ok(());
    }
    let mut header = [0u8; 4096];
    let n = case_line::undo(&mut header, case_line::column(line, 2));
    let room = case_line::number(case_line::column(line, 1));
    let place = case_line::number(case_line::column(line, 3));
    show(rt, case_line::column(line, 0), room, &header[..n], place)
}

// Kept: one loop for all programs would take a closure, and a public function may not require that it can be called.
fn main(rt: HostRuntime) -> io::Result<()> {
    let input = program_input::read(rt.alloc(), rt.reader(), 65536)?;
    for line in input.split(|b| *b == b'\n') {
        show_line(&rt, line)?;
    }
    Ok(())
}
