// Copies between byte slices that stop where either side ends, so that no caller has to size them first.
#![tactic(auto)]

ghost use Rattle.std.specs.Prelude.{◌≡◌, min, ◌++◌, length, take, drop};
ghost use Rattle.byte_slices.specs.Parts.{Filled, Copied};

// Copies as much of `src` as fits to the front of `dst`, and answers how much.
pub fn fill_front(dst: &mut [u8], src: &[u8]) -> usize
    ensures count { result ≡ min (length dst.old) (length src.now) }
    ensures after { dst.new ≡ take result src.now ++ drop result dst.old }
{
    let k = dst.len().min(src.len());
    dst[0..k].copy_from_slice(&src[0..k]);
    k
}

// Copies as much of `src` as fits to `dst` from `at` on, and answers how much.
pub fn fill_at(dst: &mut [u8], at: usize, src: &[u8]) -> usize
    ensures { Filled dst.old dst.new at src.now result }
{
    let start = at.min(dst.len());
    fill_front(&mut dst[start..], src)
}

// Copies as much as fits of what `src` holds from `first` up to `end` to the front of `dst`, and answers how much.
pub fn fill_from(dst: &mut [u8], src: &[u8], first: usize, end: usize) -> usize
    ensures { Copied dst.old dst.new src.now first end result }
{
    let stop = end.min(src.len());
    let start = first.min(stop);
    fill_front(dst, &src[start..stop])
}
