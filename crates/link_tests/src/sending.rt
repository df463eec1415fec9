// Commands that depart, wait or are refused, and tickets of another link.
use link::{Link, Outcome};
use port::{LineControl, Port};
use serial::Serial;
use std::test::Fail;

// Under line control a command is taken while it is not clear to send, and departs once it is.
#[test]
fn waits_for_clear(rt: HostRuntime) -> Result<(), Fail> {
    let mut link = Link::new(LineControl::new(Serial::new()), 7);
    link.clear(false);
    let ticket = link.submit(b"01", b"PLAY:")?;
    let mut sink = [b'.'; 16];
    let held_back = link.depart(&mut sink);
    link.clear(true);
    let departed = link.depart(&mut sink);
    assert_eq!(rt; link.settle(ticket), Outcome::GivenUp);
    assert_eq!(rt; (held_back, departed), (0, 14));
    assert_eq!(rt; sink, *b"01/0/PLAY:/54\r..");
    Ok(())
}

// The number by which a command is refused; one that is accepted is given up at once.
fn send(link: &mut Link<Serial>) -> Result<(), u8> {
    let ticket = link
        .submit(b"01", b"PLAY:")
        .map_err(|fault| fault.number())?;
    let _ = link.settle(ticket);
    Ok(())
}

// A port with room for the line and not for its end takes nothing of it; with one place more it takes all.
#[test]
fn too_full(rt: HostRuntime) {
    let mut serial = Serial::new();
    assert_eq!(rt; serial.write(&[b' '; 2035]), 2035);
    let mut link = Link::new(serial, 7);
    assert_eq!(rt; send(&mut link), Err(13));
    assert_eq!(rt; link.depart(&mut [0]), 1);
    assert_eq!(rt; send(&mut link), Ok(()));
    assert_eq!(rt; send(&mut link), Err(13));
}

// Ten commands that nobody answers take all the numbers; a reset gives them back.
#[test]
fn no_number_left(rt: HostRuntime) {
    let mut link = Link::new(Serial::new(), 7);
    for _ in 0..10 {
        assert_eq!(rt; send(&mut link), Ok(()));
    }
    assert_eq!(rt; send(&mut link), Err(12));
    assert_eq!(rt; link.reset(), 0);
    assert_eq!(rt; send(&mut link), Ok(()));
}

// A ticket is foreign on a link of another number, and its own number stays held.
#[test]
fn foreign(rt: HostRuntime) -> Result<(), Fail> {
    let mut first = Link::new(Serial::new(), 1);
    let mut second = Link::new(Serial::new(), 2);
    let ticket = first.submit(b"01", b"PLAY:")?;
    assert_eq!(rt; second.settle(ticket), Outcome::Foreign);
    assert_eq!(rt; (first.reset(), second.reset()), (1, 0));
    Ok(())
}
