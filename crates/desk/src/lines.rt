// The lines of a script.
ghost use Rattle.std.specs.Prelude.{◌≡◌, ◌<◌, length};
ghost use Rattle.desk.specs.Lines.{Ends, without_return, FirstLine, Opens, silent};

// Where the first line ends.
fn line_end(script: &[u8]) -> Option<usize>
    ensures { Ends script.now result }
{
    script.iter().position(|b| *b == b'\n')
}

// A line that was ended by 10, without the 13 that may stand before it.
fn without_return(line: &[u8]) -> &[u8]
    ensures { result.now ≡ without_return line.now }
{
    match line {
        [rest @ .., b'\r'] => rest,
        _ => line,
    }
}

// The first line, without its end, and what follows it. The last line need not be ended.
pub fn first_line(script: &[u8]) -> (&[u8], &[u8])
    ensures line { FirstLine script.now result.0.now result.1.now }
    ensures shorter { 0 < length script.now → length result.1.now < length script.now }
{
    match line_end(script) {
        Some(i) => (without_return(&script[..i]), &script[i + 1..]),
        None => (script, &script[script.len()..]),
    }
}

// Empty lines and comments ask for nothing.
pub fn is_silent(line: &[u8]) -> bool
    ensures { result ≡ silent line.now }
{
    matches!(line, [] | [b';', ..])
}

// What follows a first line that asks for line control; none if the first line asks for something else.
pub fn without_port(script: &[u8]) -> Option<&[u8]>
    ensures { Opens script.now result }
{
    let (line, rest) = first_line(script);
    (line == b"port controlled".as_slice()).then_some(rest)
}
