// Bytes shown with the escapes of a field.
ghost use Rattle.std.specs.Prelude.{Some};
ghost use Rattle.escape.specs.Spelling.{spelled, spelling};

use std::fmt;

#[derive(Clone, Copy)]
struct SpelledByte(u8);

impl fmt::Display for SpelledByte {
    ghost output = { λ byte. Some (spelled byte.0) };

    fn fmt<W: fmt::Write>(&self, f: &mut fmt::Formatter<W>) -> fmt::Result {
        let b = self.0;
        match b {
            b':' => f.write_str("\\:"),
            b'/' => f.write_str("\\/"),
            b'\\' => f.write_str("\\\\"),
            b'\n' => f.write_str("\\n"),
            b'\r' => f.write_str("\\r"),
            b'\t' => f.write_str("\\t"),
            b' '..=b'~' => f.write_char(b as char),
            _ => {
                // tried: one `{b:03}`; its proof did not close. What is shown goes to a formatter, so no array of digits is made.
                let hundreds = b / 100;
                let tens = b / 10 % 10;
                let ones = b % 10;
                write!(f, "\\d{hundreds}{tens}{ones}")
            }
        }
    }
}

#[derive(Clone, Copy)]
pub struct Spelled<'a>(pub &'a [u8]);

impl<'a> fmt::Display for Spelled<'a> {
    ghost output = { λ bytes. Some (spelling bytes.0.now) };

    fn fmt<W: fmt::Write>(&self, f: &mut fmt::Formatter<W>) -> fmt::Result {
        for b in self.0 {
            let byte = SpelledByte(*b);
            write!(f, "{byte}")?;
        }
        Ok(())
    }
}
