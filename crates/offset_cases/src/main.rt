// Prints what the downgrade call answers to refused inputs: for each case a label, the number, which input it is about (1 the envelope,
// 2 the header), the place and the offset. The cases stand in `stdin`, most with no column for the setting, which then is 0.
#![tactic(auto)]

use std::io;

// A case with two buffers of 64 bytes.
fn show(
    rt: &impl Print,
    label: &[u8],
    setting: usize,
    envelope: &[u8],
    header: &[u8],
) -> io::Result<()> {
    let mut envelope_buffer = [0u8; 64];
    let mut header_buffer = [0u8; 64];
    let answer = hennelaku::hennelaku_downgrade_slices(
        setting as u64,
        envelope,
        header,
        &mut envelope_buffer,
        &mut header_buffer,
    );
    rt.write_all(label)?;
    print!(rt; ": {}", answer.number as usize)?;
    print!(rt; " of input {}", answer.input as usize)?;
    print!(rt; " at {}", answer.place)?;
    print!(rt; ", offset {}\r\n", answer.offset)
}

// A line of the input.
fn show_line(rt: &impl Print, line: &[u8]) -> io::Result<()> {
    if !case_line::is_case(line) {
        return Ok(());
    }
    let mut envelope = [0u8; 16385];
    let mut header = [0u8; 32769];
    let n = case_line::undo(&mut envelope, case_line::column(line, 1));
    let m = case_line::undo(&mut header, case_line::column(line, 2));
    let setting = case_line::number(case_line::column(line, 3));
    show(
        rt,
        case_line::column(line, 0),
        setting,
        &envelope[..n],
        &header[..m],
    )
}

// Kept: one loop for all programs would take a closure, and a public function may not require that it can be called.
fn main(rt: HostRuntime) -> io::Result<()> {
    let input = program_input::read(rt.alloc(), rt.reader(), 65536)?;
    for line in input.split(|b| *b == b'\n') {
        show_line(&rt, line)?;
    }
    Ok(())
}
