// Prints what becomes of address fields: for each a label, the field with its CRs, LFs and TABs spelt out, whether its text fits and
// every address is kept, the length of what is written for it, whether buffers of every size up to 1,024 bytes get as much of it as
// they hold, and what is written. The cases stand in `stdin`, most with no column for the setting, which then is 0.
#![tactic(auto)]

use address_list::Examined;
use rules::Rules;
use std::io;

// What becomes of a field.
fn write(out: &mut [u8], rules: Rules, field: &[u8]) -> usize {
    outgoing_field::add_field(out, 0, rules, field)
}

// Whether the text of a field fits.
fn examined(rules: Rules, field: &[u8]) -> Examined {
    let mut text = [0u8; 4096];
    let n = field_text::put(&mut text, field);
    address_list::examine(line::part(&text, 0, n), rules)
}

fn say_byte(rt: &impl Print, b: u8) -> io::Result<()> {
    let one = [b];
    match b {
        9 => print!(rt; "{{TAB}}"),
        10 => print!(rt; "{{LF}}"),
        13 => print!(rt; "{{CR}}"),
        _ => rt.write_all(&one),
    }
}

fn say_readably(rt: &impl Print, field: &[u8]) -> io::Result<()> {
    for b in field {
        say_byte(rt, *b)?;
    }
    print!(rt; "\r\n")
}

fn say_examined(rt: &impl Print, examined: Examined) -> io::Result<()> {
    match examined {
        Examined::DoesNotFit => print!(rt; "does not fit, "),
        Examined::Kept => print!(rt; "fits, every address kept, "),
        Examined::Changed => print!(rt; "fits, an address replaced or removed, "),
    }
}

// Whether the front of a buffer that is full of #, lent `size` bytes long, is filled with the front of the whole output, the
// whole length is answered, and the bytes after stay.
fn filled(spare: &mut [u8], rules: Rules, field: &[u8], whole: &[u8], size: usize) -> bool {
    let end = case_line::room(size, spare);
    let n = write(&mut spare[..end], rules, field);
    (n == whole.len()) & case_line::holds(spare, whole, end)
}

// The same in a buffer of its own.
fn fits(rules: Rules, field: &[u8], whole: &[u8], size: usize) -> bool {
    let mut spare = [b'#'; 1024];
    filled(&mut spare, rules, field, whole, size)
}

// The same of every size up to 1,024.
fn all_sizes(rules: Rules, field: &[u8], whole: &[u8]) -> bool {
    for size in 0..1025 {
        if !fits(rules, field, whole, size) {
            return false;
        }
    }
    true
}

// Kept: as `verdict` of word_cases.
fn say_same(rt: &impl Print, same: bool) -> io::Result<()> {
    if same {
        print!(rt; "the same in buffers of 0 to 1024 bytes\r\n")
    } else {
        print!(rt; "OTHER in a buffer of 0 to 1024 bytes\r\n")
    }
}

// The whole output, its length, and whether buffers of every size agree.
fn show_written(rt: &impl Print, rules: Rules, field: &[u8]) -> io::Result<()> {
    let mut out = [b'#'; 8192];
    let n = write(&mut out, rules, field);
    let whole = line::part(&out, 0, n);
    print!(rt; "{n} bytes, ")?;
    say_same(rt, all_sizes(rules, field, whole))?;
    rt.write_all(whole)
}

fn show(rt: &impl Print, label: &[u8], rules: Rules, field: &[u8]) -> io::Result<()> {
    rt.write_all(label)?;
    print!(rt; "\r\n")?;
    say_readably(rt, field)?;
    say_examined(rt, examined(rules, field))?;
    show_written(rt, rules, field)
}

// A line of the input. Kept: each program has its own columns and calls its own `show`.
fn show_line(rt: &impl Print, line: &[u8]) -> io::Result<()> {
    if !case_line::is_case(line) {
        return Ok(());
    }
    let mut field = [0u8; 4096];
    let n = case_line::undo(&mut field, case_line::column(line, 1));
    let setting = case_line::number(case_line::column(line, 2));
    let rules = rules::of_setting(setting as u64);
    show(rt, case_line::column(line, 0), rules, &field[..n])
}

// Kept: one loop for all programs would take a closure, and a public function may not require that it can be called.
fn main(rt: HostRuntime) -> io::Result<()> {
    let input = program_input::read(rt.alloc(), rt.reader(), 65536)?;
    for line in input.split(|b| *b == b'\n') {
        show_line(&rt, line)?;
    }
    Ok(())
}
