// Cutting bytes into lines, each ended by byte 13 or 10.
ghost use Rattle.std.specs.Prelude.{◌≡◌};
ghost use Rattle.std.specs.List.{position};
ghost use Rattle.inspect.specs.Lines.{is_end, cut_line};
ghost use Rattle.inspect.specs.Meanings.{cut_off, Shorter};

// One line, as in `reader`, on which this program does not stand.
fn is_end(b: u8) -> bool
    ensures { result ≡ is_end b }
{
    matches!(b, b'\r' | b'\n')
}

// Where the first line ends.
fn line_end(bytes: &[u8]) -> Option<usize>
    ensures { result ≡ position is_end bytes.now }
{
    bytes.iter().position(|b| is_end(*b))
}

// The first line without its end, and what stands behind the end; none where no line has ended.
pub(crate) fn next_line(bytes: &[u8]) -> Option<(&[u8], &[u8])>
    ensures cut { cut_off result ≡ cut_line bytes.now }
    ensures shorter { Shorter bytes.now result }
{
    let end = line_end(bytes)?;
    Some((&bytes[..end], &bytes[end + 1..]))
}
