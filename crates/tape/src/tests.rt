// A tape from its first byte to its last place.
use crate::Tape;
use port::Port;
use std::test::Fail;

#[test]
fn runs_out(rt: HostRuntime) -> Result<(), Fail> {
    let heap = rt.alloc();
    let mut tape = Tape::new(heap, b"play".to_vec(heap)?, 5)?;
    let mut sink = *b"....";
    assert!(rt; tape.write(b"abc") == 3);
    assert!(rt; tape.depart(&mut sink) == 3);
    assert!(rt; sink == *b"abc.");
    assert!(rt; tape.write(b"def") == 2);
    assert_eq!(rt; tape.room(), (0, true));
    tape.hangup();
    assert_eq!(rt; tape.room(), (0, true));
    assert!(rt; tape.write(b"g") == 0);
    assert!(rt; tape.depart(&mut sink) == 0);
    assert_eq!(rt; tape.read(&mut sink), (0, 0));
    Ok(())
}

#[test]
fn moves_nothing(rt: HostRuntime) -> Result<(), Fail> {
    let heap = rt.alloc();
    let mut tape = Tape::new(heap, b"play".to_vec(heap)?, 0)?;
    assert!(rt; tape.arrive(b"more") == 0 && tape.arrive(&[]) == 0);
    assert!(rt; tape.write(b"a") == 0 && tape.write(&[]) == 0);
    assert!(rt; tape.depart(&mut []) == 0);
    assert_eq!(rt; tape.read(&mut []), (0, 4));
    tape.clear(false);
    assert_eq!(rt; tape.room(), (0, false));
    let mut sink = *b".......";
    assert_eq!(rt; tape.read(&mut sink), (4, 0));
    assert!(rt; sink == *b"play...");
    Ok(())
}
