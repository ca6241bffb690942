// Hex digits in upper case.
#![tactic(auto)]

ghost use Rattle.std.specs.Prelude.{◌≡◌, ◌≤◌, ◌%◌};
ghost use Rattle.hex_digit.specs.Hex.{hex_digit, hex_value};

// The digit of a value 0 to 15; of a greater number that of its lower half.
pub fn digit(v: u8) -> u8
    ensures { result ≡ hex_digit (v % 16) }
{
    let d = v % 16;
    let zero = if d < 10 { 48 } else { 65 - 10 };
    zero + d
}

// The value of a hex digit, 0 to 15; 16 for any other byte.
pub fn value(b: u8) -> u8
    ensures { (result ≡ hex_value b) × (result ≤ 16) }
{
    if (48 <= b) & (b <= 57) {
        return b - 48;
    }
    if (65 <= b) & (b <= 70) {
        return b - 65 + 10;
    }
    16
}
