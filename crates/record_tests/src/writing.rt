// What is written of each record, and what is refused.
use crate::status_line;
use line::{Fault, Side};
use record::{BrowseResultsOverview, PlayMode, PlayStatus, Span, TitleName};
use writer::Writer;

// A play status in a buffer of just its line's length, and with numbers that do not fit.
#[test]
fn play_status(rt: HostRuntime) {
    let mut status = PlayStatus {
        mode: PlayMode::Playing,
        speed: 0,
        title_number: 1,
        title_length: 5343,
        title_location: 1175,
        chapter_number: 4,
        chapter_length: 600,
        chapter_location: 34,
    };
    let mut out = [0; 59];
    assert!(rt; status_line(&mut out, b"01", '!', b"000", &status) == Ok(59));
    assert!(rt; out == *b"01/!/000:PLAY_STATUS:2:0:01:05343:01175:004:00600:00034:/29");
    status.chapter_location = 100000;
    assert!(rt; status_line(&mut out, b"01", '!', b"000", &status) == Err(Fault::RecordForm(8)));
    status.title_number = 100;
    assert!(rt; status_line(&mut out, b"01", '!', b"000", &status) == Err(Fault::RecordForm(3)));
}

// A title with a colon, behind a status, behind itself and behind a command's name.
#[test]
fn titles(rt: HostRuntime) {
    let record = TitleName {
        title: Span { start: 2, end: 5 },
    };
    let mut out = [0; 28];
    let mut writer = Writer::over(&mut out);
    assert!(rt; record.write(b"--A:B", &mut writer) == Err(Fault::RecordForm(0)));
    assert!(rt; writer.begin(Side::Answer, b"01", '!', b"000") == Ok(()));
    assert!(rt; record.write(b"--A:", &mut writer) == Err(Fault::RecordForm(1)));
    assert!(rt; record.write(b"--A:B", &mut writer) == Ok(()));
    assert!(rt; record.write(b"--A:B", &mut writer) == Err(Fault::RecordForm(0)));
    assert!(rt; writer.close() == 28);
    assert!(rt; out == *b"01/!/000:TITLE_NAME:A\\:B:/40");
}

// An overview's counts have no leading zeros.
#[test]
fn overviews(rt: HostRuntime) {
    let record = BrowseResultsOverview {
        handle: Span { start: 0, end: 5 },
        title: Span { start: 5, end: 10 },
        lines: 5,
        total: 65535,
    };
    let mut out = [0; 56];
    let mut writer = Writer::over(&mut out);
    assert!(rt; writer.begin(Side::Answer, b"01", '1', b"000") == Ok(()));
    assert!(rt; record.write(b"musicMusic", &mut writer) == Ok(()));
    assert!(rt; writer.close() == 56);
    assert!(rt; out == *b"01/1/000:BROWSE_RESULTS_OVERVIEW:music:Music:5:65535:/03");
}
