// Numbers written in digits.
ghost use Rattle.std.specs.Prelude.{◌≡◌};
ghost use Rattle.numeral.specs.Numbers.{in_digits, width_of};

// The last digits of a number, as many as the array has places; a number of fewer digits has zeros before them.
pub fn digits<const N: usize>(n: u32) -> [u8; N]
    ensures { result ≡ in_digits N n }
{
    let mut out = [b'0'; N];
    let mut rest = n;
    // by index: of what an adapter of `iter_mut` lends out, no contract says what it holds afterwards
    for i in 0..N {
        out[N - 1 - i] = b'0' + (rest % 10) as u8;
        rest /= 10;
    }
    out
}

// How many digits a count has.
pub fn count_width(n: u16) -> usize
    ensures { result ≡ width_of n }
{
    match n {
        0..=9 => 1,
        10..=99 => 2,
        100..=999 => 3,
        1000..=9999 => 4,
        _ => 5,
    }
}
