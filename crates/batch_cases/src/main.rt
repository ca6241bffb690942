// Prints what the batch call leaves: for each case a label and all numbers afterwards, whether the bytes past both buffers are as they were,
// and both buffers, which were full of #. The cases stand in `stdin`.
#![tactic(auto)]

ghost use Rattle.std.specs.Prelude.{◌≤◌, length};

use std::io;

// The number that decimal digits say, at most the greatest of 32 bits.
fn number(digits: &[u8]) -> u32 {
    let mut n: usize = 0;
    for digit in digits {
        n = buffer::clip(n * 10 + usize::from(hex_digit::value(*digit)), 4294967295);
    }
    n as u32
}

// Stores a number at a place, where it fits; answers the place after it.
fn add_number(numbers: &mut [u32], at: usize, n: u32) -> usize
    requires { at ≤ length numbers.old }
    ensures { result ≤ length numbers.new }
{
    if numbers.len() <= at {
        return at;
    }
    numbers[at] = n;
    at + 1
}

// Stores the numbers of a text, which spaces part, as far as they fit; answers how many.
fn read_numbers(numbers: &mut [u32], text: &[u8]) -> usize
    ensures { result ≤ length numbers.new }
{
    let mut n: usize = 0;
    let mut at = 0;
    while at < text.len() {
        let end = case_line::find(text, at, b' ');
        n = add_number(numbers, n, number(line::part(text, at, end)));
        at = buffer::place_after(end, 1);
    }
    n
}

fn say_number(rt: &impl Print, n: u32) -> io::Result<()> {
    print!(rt; " {n}")
}

fn say_numbers(rt: &impl Print, numbers: &[u32]) -> io::Result<()> {
    for n in numbers {
        say_number(rt, *n)?;
    }
    Ok(())
}

// Whether the bytes past n and m are as they were.
fn say_rest(
    rt: &impl Print,
    envelope_space: &[u8],
    n: usize,
    header_space: &[u8],
    m: usize,
) -> io::Result<()> {
    let envelope_rest = line::part(envelope_space, n, envelope_space.len());
    let header_rest = line::part(header_space, m, header_space.len());
    if case_line::is_untouched(envelope_rest) & case_line::is_untouched(header_rest) {
        print!(rt; ", rest untouched\r\n")
    } else {
        print!(rt; ", REST CHANGED\r\n")
    }
}

// A batch that is lent the first n and the first m bytes of two buffers.
fn call(
    setting: usize,
    input: &[u8],
    numbers: &mut [u32],
    envelope_space: &mut [u8],
    n: usize,
    header_space: &mut [u8],
    m: usize,
) {
    let envelope_end = case_line::room(n, envelope_space);
    let header_end = case_line::room(m, header_space);
    hennelaku::hennelaku_downgrade_batch_slices(
        setting as u64,
        input,
        numbers,
        &mut envelope_space[..envelope_end],
        &mut header_space[..header_end],
    );
}

// A case with buffers of n and m bytes, full of #.
fn show(
    rt: &impl Print,
    label: &[u8],
    setting: usize,
    input: &[u8],
    numbers: &mut [u32],
    n: usize,
    m: usize,
) -> io::Result<()> {
    let mut envelope_space = [b'#'; 256];
    let mut header_space = [b'#'; 256];
    call(
        setting,
        input,
        numbers,
        &mut envelope_space,
        n,
        &mut header_space,
        m,
    );
    rt.write_all(label)?;
    print!(rt; ":")?;
    say_numbers(rt, numbers)?;
    say_rest(rt, &envelope_space, n, &header_space, m)?;
    rt.write_all(line::part(&envelope_space, 0, n))?;
    print!(rt; "\r\n")?;
    rt.write_all(line::part(&header_space, 0, m))?;
    print!(rt; "\r\n")
}

// A line of the input.
fn show_line(rt: &impl Print, line: &[u8]) -> io::Result<()> {
    if !case_line::is_case(line) {
        return Ok(());
    }
    let mut input = [0u8; 33024];
    let mut numbers = [0u32; 64];
    let size = case_line::undo(&mut input, case_line::column(line, 3));
    let count = read_numbers(&mut numbers, case_line::column(line, 4));
    show(
        rt,
        case_line::column(line, 0),
        case_line::number(case_line::column(line, 5)),
        &input[..size],
        &mut numbers[..count],
        case_line::number(case_line::column(line, 1)),
        case_line::number(case_line::column(line, 2)),
    )
}

// Kept: one loop for all programs would take a closure, and a public function may not require that it can be called.
fn main(rt: HostRuntime) -> io::Result<()> {
    let input = program_input::read(rt.alloc(), rt.reader(), 65536)?;
    for line in input.split(|b| *b == b'\n') {
        show_line(&rt, line)?;
    }
    Ok(())
}
