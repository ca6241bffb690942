// Prints what becomes of values with parameters: for each a label, and `held`, or what is written for a field of that value, with its length.
// The cases stand in `stdin`.
#![tactic(auto)]

use std::io;

fn show_written(rt: &impl Print, value: &[u8]) -> io::Result<()> {
    let mut out = [0u8; 65536];
    let mut scratch = [0u8; 65536];
    let n = parameterized_field::add_field(&mut out, 0, b"Content-Type", value, &mut scratch);
    print!(rt; "{n}\r\n")?;
    rt.write_all(line::part(&out, 0, n))
}

fn show(rt: &impl Print, label: &[u8], value: &[u8]) -> io::Result<()> {
    rt.write_all(label)?;
    print!(rt; ": ")?;
    if parameterized_field::passes(value) {
        return show_written(rt, value);
    }
    print!(rt; "held\r\n")
}

fn show_line(rt: &impl Print, line: &[u8]) -> io::Result<()> {
    if !case_line::is_case(line) {
        return Ok(());
    }
    let mut space = [0u8; 33000];
    let n = case_line::undo(&mut space, case_line::column(line, 1));
    show(rt, case_line::column(line, 0), &space[..n])
}

// Kept: one loop for all programs would take a closure, and a public function may not require that it can be called.
fn main(rt: HostRuntime) -> io::Result<()> {
    let input = program_input::read(rt.alloc(), rt.reader(), 65536)?;
    for line in input.split(|b| *b == b'\n') {
        show_line(&rt, line)?;
    }
    Ok(())
}
