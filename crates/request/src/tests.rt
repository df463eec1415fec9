// Requests that are written, and requests that are refused, by number and place.
use crate::Request;
use std::test::Fail;

fn writes(address: &[u8], number: u8, body: &[u8], line: &[u8]) -> bool {
    let request = Request { address, body };
    let mut out = [0u8; 1024];
    request
        .prepare(number, &mut out)
        .is_ok_and(|prepared| out.get(..prepared.length) == Some(line))
}

#[test]
fn written_in_one_way(rt: HostRuntime) {
    assert!(rt; writes(b"01", 1, b"DOWN:", b"01/1/DOWN:/57"));
    assert!(rt; writes(b"01", 7, b"A:\\d065:", b"01/7/A:A:/39"));
    assert!(rt;
        writes(
            b"#0123456789AB.02",
            3,
            b"BROWSE:x\\:y:",
            b"#0123456789AB.02/3/BROWSE:x\\:y:/00",
        )
    );
}

fn refusal(address: &[u8], number: u8, body: &[u8]) -> Option<(u8, Option<usize>)> {
    let request = Request { address, body };
    let mut out = [0u8; 1024];
    let fault = request.prepare(number, &mut out).err()?;
    Some((fault.number(), fault.place()))
}

#[test]
fn refused_as_a_line(rt: HostRuntime) {
    assert_eq!(rt; refusal(b"01", 0, &[b'A'; 1020]), Some((1, Some(1024))));
    assert_eq!(rt; refusal(b"01", 0, b"A\n:"), Some((2, Some(6))));
    assert_eq!(rt; refusal(b"01", 0, b"A:\\"), Some((9, Some(5))));
    assert_eq!(rt; refusal(b"01", 0, b"A:/12"), Some((4, Some(13))));
    assert_eq!(rt; refusal(b"??", 0, b"A:"), Some((5, Some(0))));
    assert_eq!(rt; refusal(b"01", 9, b"A"), Some((9, Some(5))));
    assert_eq!(rt; refusal(b"01", 9, b"1:"), Some((10, Some(5))));
}

#[test]
fn refused_for_the_buffer(rt: HostRuntime) -> Result<(), Fail> {
    let mut out = [0u8; 1023];
    let request = Request {
        address: b"01",
        body: b"DOWN:",
    };
    assert!(rt; matches!(request.prepare(1, &mut out), Err(fault) if fault.number() == 14));
    Ok(())
}
