// The first bytes of standard input.
ghost use Rattle.std.specs.Prelude.{◌≤◌, IfOk, vec_len};

use std::alloc::AllocError;
use std::io::Read;

// The most bytes that are taken.
const INPUT_MAX: usize = 65536;

// The bytes of standard input, until it ends or there are enough.
pub fn first_bytes(rt: &HostRuntime) -> anyhow::Result<Vec<u8>>
    ensures { IfOk result (λ bytes. vec_len bytes ≤ 65536) }
{
    // Each read has all the room that is left. Not `take` and `read_to_end`: their first reads are small, which loses the rest of a packet
    // where the input keeps packets apart, and they ask for twice the memory before they see that there is enough.
    let mut bytes = vec![in rt.alloc(); 0; INPUT_MAX]?;
    let mut stdin = rt.stdin();
    let mut len: usize = 0;
    for _ in 0..INPUT_MAX {
        let came = stdin.read(&mut bytes[len..])?;
        if came == 0 {
            break;
        }
        len += came;
    }
    bytes.truncate(len);
    Ok(bytes)
}
