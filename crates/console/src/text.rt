// Bytes as text.
ghost use Rattle.std.specs.Prelude.{Some};
ghost use Rattle.console.specs.Shown.{characters};

use std::fmt;

// Each byte is shown as the character of its number, so bytes from 32 to 126 as they are.
#[derive(Clone, Copy)]
pub struct Text<'a>(pub &'a [u8]);

impl<'a> fmt::Display for Text<'a> {
    ghost output = { λ text. Some (characters text.0.now) };

    fn fmt<W: fmt::Write>(&self, f: &mut fmt::Formatter<W>) -> fmt::Result {
        for b in self.0 {
            f.write_char(*b as char)?;
        }
        Ok(())
    }
}
