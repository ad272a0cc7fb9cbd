ghost use Rattle.std.specs.Prelude.{◌≡◌, IfOk};
ghost use Rattle.parfield.specs.Shown.{shown};

use crate::hex_byte::HexByte;
use std::alloc::{AllocError, Global};
use std::fmt;

/// Bytes that are written as a line of ASCII: a backslash is written twice, and every byte outside
/// 20 to 7E (hexadecimal) as `\x` and two digits.
#[derive(Clone, Copy, Debug, PartialEq, Eq)]
pub struct Shown<'a>(pub &'a [u8]);

impl fmt::Display for Shown<'_> {
    ghost use Rattle.std.specs.Prelude.{Some};

    ghost output = { λ s. Some (shown s.0.now) };

    fn fmt<W: fmt::Write>(&self, f: &mut fmt::Formatter<W>) -> fmt::Result {
        for &byte in self.0 {
            ShownByte(byte).fmt(f)?;
        }
        Ok(())
    }
}

// One byte of a shown text, written as `Shown` says.
#[derive(Clone, Copy)]
struct ShownByte(u8);

impl fmt::Display for ShownByte {
    ghost use Rattle.std.specs.Prelude.{Some};
    ghost use Rattle.parfield.specs.Shown.{shown_byte};

    ghost output = { λ s. Some (shown_byte s.0) };

    fn fmt<W: fmt::Write>(&self, f: &mut fmt::Formatter<W>) -> fmt::Result {
        let byte = self.0;
        if byte == b'\\' {
            return f.write_str("\\\\");
        }
        if byte >= 32 && byte <= 126 {
            return f.write_char(byte as char);
        }
        f.write_str("\\x")?;
        HexByte(byte).fmt(f)
    }
}

/// Writes a name or another text as it is shown, into new memory; fails if memory is refused.
pub fn show_name(alloc: Global, name: &[u8]) -> Result<Vec<u8>, AllocError>
    ensures { IfOk result (λ text. text.items ≡ shown name.now) }
{
    let text = format!(in alloc; "{}", Shown(name))?;
    Ok(text.into_bytes())
}
