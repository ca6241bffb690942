// Prints what becomes of some headers: for each a label, and the number and line of its refusal, or each of its fields with its
// kind, whether its value is ASCII, and what is written for it, with the length. Of an address field only the words are shown. The
// cases stand in `stdin`.
#![tactic(auto)]

use header_name::Kind;
use rules::Rules;
use std::io;

// What becomes of a field, nothing where it is held; and the words of its text.
fn write(out: &mut [u8], field: &[u8]) -> usize {
    match outgoing_field::first_held(Rules::Spool, field) {
        Ok(_) => outgoing_field::add_field(out, 0, Rules::Spool, field),
        Err(_) => 0,
    }
}

fn write_words(out: &mut [u8], field: &[u8]) -> usize {
    let mut text = [0u8; 4096];
    let n = field_text::put(&mut text, field);
    encoded_word::write(out, line::part(&text, 0, n))
}

// A length, and then what is written, as far as it fits the buffer.
fn written(rt: &impl Print, label: &[u8], n: usize, out: &[u8]) -> io::Result<()> {
    rt.write_all(label)?;
    print!(rt; "{n}\r\n")?;
    rt.write_all(line::part(out, 0, n))
}

fn show_written(rt: &impl Print, field: &[u8]) -> io::Result<()> {
    let mut out = [0u8; 4096];
    let n = write(&mut out, field);
    written(rt, b", ", n, &out)
}

fn show_words(rt: &impl Print, field: &[u8]) -> io::Result<()> {
    let mut out = [0u8; 4096];
    let n = write_words(&mut out, field);
    written(rt, b", words of ", n, &out)?;
    print!(rt; "\r\n")
}

fn say_kind(rt: &impl Print, kind: Kind) -> io::Result<()> {
    match kind {
        Kind::Address => print!(rt; "address"),
        Kind::PlainText => print!(rt; "plain text"),
        Kind::Received => print!(rt; "Received"),
        Kind::Commented => print!(rt; "with comments"),
        Kind::MessageId => print!(rt; "with comments"),
        Kind::Parameterized => print!(rt; "with parameters"),
        Kind::OtherCommented => print!(rt; "other"),
        Kind::Other => print!(rt; "other"),
        _ => print!(rt; "held"),
    }
}

fn show_field(rt: &impl Print, field: &[u8]) -> io::Result<()> {
    let n = header_line::name_len(field);
    let kind = header_name::kind_of(line::part(field, 0, n));
    say_kind(rt, kind)?;
    if header::value_is_ascii(field) {
        print!(rt; ", ASCII")?;
        return show_written(rt, field);
    }
    print!(rt; ", not ASCII")?;
    match kind {
        Kind::Address => show_words(rt, field),
        _ => show_written(rt, field),
    }
}

fn show_fields(rt: &impl Print, h: &[u8]) -> io::Result<()> {
    print!(rt; "well formed\r\n")?;
    let mut at = 0;
    while at < h.len() {
        let to = header::field_end(h, at);
        show_field(rt, line::part(h, at, to))?;
        at = to;
    }
    Ok(())
}

fn refused(rt: &impl Print, number_and_words: &[u8], line: usize) -> io::Result<()> {
    rt.write_all(number_and_words)?;
    print!(rt; "{line}\r\n")
}

fn show_well_formed(rt: &impl Print, h: &[u8]) -> io::Result<()> {
    match outgoing_field::first_held(Rules::Spool, h) {
        Ok(_) => show_fields(rt, h),
        Err(held) => refused(rt, b"6 at line ", held.line),
    }
}

fn show(rt: &impl Print, label: &[u8], h: &[u8]) -> io::Result<()> {
    rt.write_all(label)?;
    print!(rt; ": ")?;
    match header_line::check(h) {
        Ok(()) => show_well_formed(rt, h),
        Err(bad) => refused(rt, b"5 at line ", bad.line),
    }
}

// A field into the front of a buffer: all of the buffer afterwards, and the length that is answered.
fn show_buffer(rt: &impl Print, out: &mut [u8], field: &[u8], size: usize) -> io::Result<()> {
    let end = case_line::room(size, out);
    let n = write(&mut out[..end], field);
    print!(rt; "buffer of {end}, {n}\r\n")?;
    rt.write_all(out)?;
    print!(rt; "\r\n")
}

// The length of what is written for a field.
fn show_size(rt: &impl Print, field: &[u8]) -> io::Result<()> {
    let mut none = [0u8; 0];
    print!(rt; "field of {}", field.len())?;
    print!(rt; ", {}\r\n", write(&mut none, field))
}

// A line of the input; where it is a case, the first letter of its kind tells what is shown.
// Kept: the letter is the case's own column, and each kind takes other columns.
fn show_line(rt: &impl Print, line: &[u8]) -> io::Result<()> {
    if !case_line::is_case(line) {
        return Ok(());
    }
    let mut space = [0u8; 33000];
    let mut out = [b'#'; 50];
    let n = case_line::undo(&mut space, case_line::column(line, 2));
    let text = &space[..n];
    let size = case_line::number(case_line::column(line, 3));
    match line::byte_at(line, 0) {
        b'h' => show(rt, case_line::column(line, 1), text),
        b'b' => show_buffer(rt, &mut out, text, size),
        b's' => show_size(rt, text),
        _ => print!(rt; "NO KIND OF CASE\r\n"),
    }
}

// Kept: one loop for all programs would take a closure, and a public function may not require that it can be called.
fn main(rt: HostRuntime) -> io::Result<()> {
    let input = program_input::read(rt.alloc(), rt.reader(), 65536)?;
    for line in input.split(|b| *b == b'\n') {
        show_line(&rt, line)?;
    }
    Ok(())
}
