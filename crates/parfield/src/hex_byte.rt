ghost use Rattle.std.specs.Prelude.{◌≡◌, ◌<◌, slice_index};
ghost use Rattle.hex.specs.Hex.{lower_digits};

use std::fmt;

/// A byte that is written as two hexadecimal digits in lower case.
#[derive(Clone, Copy)]
pub struct HexByte(pub u8);

impl fmt::Display for HexByte {
    ghost use Rattle.std.specs.Prelude.{Some};
    ghost use Rattle.parfield.specs.Shown.{hex_digits};

    ghost output = { λ byte. Some (hex_digits byte.0) };

    fn fmt<W: fmt::Write>(&self, f: &mut fmt::Formatter<W>) -> fmt::Result {
        f.write_char(hex_digit(self.0 / 16))?;
        f.write_char(hex_digit(self.0 % 16))
    }
}

// Returns the hexadecimal digit of a value below 16, in lower case.
fn hex_digit(value: u8) -> char
    requires { value < 16 }
    ensures value { result ≡ slice_index lower_digits value }
    ensures ascii { result < 128 }
{
    b"0123456789abcdef"[value as usize] as char
}
