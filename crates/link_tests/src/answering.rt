// Answers that come, come late, or never come.
use link::{Kind, Link, Outcome, Pumped};
use port::Port;
use serial::Serial;
use std::test::Fail;

// An overview for number 0 that announces no line.
const EMPTY_LISTING: &[u8] = b"01/0/000:BROWSE_RESULTS_OVERVIEW:7:Titles:0:12:/58\r";

// The kind of the next line, if one has ended.
fn next_kind(link: &mut Link<Serial>) -> Option<Kind> {
    let mut buffer = [0; 1024];
    match link.pump(&mut buffer) {
        Ok(Pumped::Line { kind, .. }) => Some(kind),
        _ => None,
    }
}

// The answer `01/n/000:` with its check: that of number 0 is 88.
fn answer(n: u8) -> [u8; 13] {
    let digit = n % 10;
    let mut line = *b"01/0/000:/88\r";
    line[3] += digit;
    line[10] = b'0' + (88 + digit) / 10;
    line[11] = b'0' + (88 + digit) % 10;
    line
}

// Sends a command whose answer comes at once or not at all, and settles its ticket: its number, and how it ended.
fn command(link: &mut Link<Serial>, is_answered: bool) -> Option<(u8, Outcome)> {
    let ticket = link.submit(b"01", b"PLAY:").ok()?;
    let number = ticket.number();
    let _ = link.depart(&mut [0; 64]);
    if is_answered {
        let _ = link.arrive(&answer(number));
        let _ = next_kind(link);
    }
    Some((number, link.settle(ticket)))
}

// The numbers go round, past one that is given up, until its answer has come after all.
#[test]
fn all_day(rt: HostRuntime) {
    let mut link = Link::new(Serial::new(), 7);
    assert_eq!(rt; command(&mut link, false), Some((0, Outcome::GivenUp)));
    for number in (1..10u8).cycle().take(200) {
        assert_eq!(rt; command(&mut link, true), Some((number, Outcome::Answered)));
    }
    assert_eq!(rt; link.arrive(&answer(0)), 13);
    assert_eq!(rt; next_kind(&mut link), Some(Kind::LateLast(0)));
    for number in 3..10u8 {
        assert_eq!(rt; command(&mut link, true), Some((number, Outcome::Answered)));
    }
    assert_eq!(rt; command(&mut link, true), Some((0, Outcome::Answered)));
}

// An overview that announces nothing is the whole answer, for an open number and for one given up.
#[test]
fn empty_listing(rt: HostRuntime) -> Result<(), Fail> {
    let mut link = Link::new(Serial::new(), 7);
    let ticket = link.submit(b"01", b"BROWSE:x:")?;
    let came = link.arrive(EMPTY_LISTING);
    let kind = next_kind(&mut link);
    assert_eq!(rt; link.settle(ticket), Outcome::Answered);
    assert_eq!(rt; (came, kind), (EMPTY_LISTING.len(), Some(Kind::Last(0))));
    let mut link = Link::new(Serial::new(), 7);
    let ticket = link.submit(b"01", b"BROWSE:x:")?;
    assert_eq!(rt; link.settle(ticket), Outcome::GivenUp);
    assert_eq!(rt; link.arrive(EMPTY_LISTING), EMPTY_LISTING.len());
    assert_eq!(rt; next_kind(&mut link), Some(Kind::LateLast(0)));
    Ok(())
}

// An answer from no address, from another zone, and twice.
#[test]
fn strays(rt: HostRuntime) -> Result<(), Fail> {
    let mut link = Link::new(Serial::new(), 7);
    let ticket = link.submit(b"01", b"PLAY:")?;
    let _ = link.arrive(b"??/0/000:/17\r01.01/0/000:/31\r");
    let others = [next_kind(&mut link), next_kind(&mut link)];
    let _ = link.arrive(&answer(0));
    let last = next_kind(&mut link);
    let _ = link.arrive(&answer(0));
    let again = next_kind(&mut link);
    assert_eq!(rt; link.settle(ticket), Outcome::Answered);
    assert_eq!(rt; others, [Some(Kind::Stray), Some(Kind::Stray)]);
    assert_eq!(rt; [last, again], [Some(Kind::Last(0)), Some(Kind::Stray)]);
    Ok(())
}

// A reset in the middle of a listing ends the command: what follows of it belongs to nobody.
#[test]
fn reset_in_a_listing(rt: HostRuntime) -> Result<(), Fail> {
    let mut link = Link::new(Serial::new(), 7);
    let ticket = link.submit(b"01", b"BROWSE:x:")?;
    let _ = link.arrive(b"01/0/000:BROWSE_RESULTS_OVERVIEW:7:Titles:1:1:/09\r01/0/000:BROWSE_RESU");
    let kind = next_kind(&mut link);
    let lost = link.reset();
    let _ = link.arrive(b"01/0/000:BROWSE_RESULT:1:4711:Heat:/00\r");
    let after = next_kind(&mut link);
    assert_eq!(rt; link.settle(ticket), Outcome::Lost);
    assert_eq!(rt; lost, 1);
    assert_eq!(rt; [kind, after], [Some(Kind::More(0)), Some(Kind::Stray)]);
    Ok(())
}
