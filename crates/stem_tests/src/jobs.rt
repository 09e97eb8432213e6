// The input of `stem`: a mute set and a log.
use job::{Job, Refusal};
use kind::Kind;
use register_log::fault::Fault;
use std::test::Fail;

// Headers, and whether the chip is an RF5C164.
const HEADERS: [(&'static [u8], bool); 8] = [
    (&[0x10, 0x98, 0x96, 0x80], false),
    (&[0x18, 0xBF, 0x0A, 0x40], true),
    (&[0x18, 0x00, 0x00, 0x01], true),
    (&[0x18, 0xBF, 0x0A, 0x41], false),
    (&[0x18, 0x00, 0x00, 0x00], false),
    (&[0x28, 0xBF, 0x0A, 0x40], false),
    (&[0x1A, 0xBF, 0x0A, 0x40], false),
    (&[0x18, 0xBF, 0x0A], false),
];

#[test]
fn kinds(rt: HostRuntime) {
    for (log, is_164) in HEADERS {
        let job = Job { mutes: 0, log };
        assert_eq!(rt; job.kind() == Kind::Rf5c164, is_164);
    }
}

#[test]
fn mutes_and_log(rt: HostRuntime) -> Result<(), Fail> {
    let Ok(job) = Job::read(&[0xFE, 0x10, 0x98]) else {
        return Err(Fail::new("refused"));
    };
    assert_eq!(rt; job.mutes, 0xFE);
    assert_eq!(rt; job.log, [0x10, 0x98].as_slice());
    Ok(())
}

#[test]
fn lengths(rt: HostRuntime) -> Result<(), Fail> {
    for (length, refused) in [(0, Some(7)), (1, None), (32_769, None), (32_770, Some(13))] {
        let input = vec![in rt.alloc(); 0u8; length]?;
        let number = Job::read(input.as_slice()).err().map(Refusal::number);
        assert_eq!(rt; number, refused);
    }
    Ok(())
}

#[test]
fn texts(rt: HostRuntime) -> Result<(), Fail> {
    let short = Refusal::Log(Fault::Length);
    assert_eq!(rt;
        format!(in rt.alloc(); "{short}")?.as_str(),
        "fault 7 log 0 0"
    );
    let long = Refusal::TooLong;
    assert_eq!(rt;
        format!(in rt.alloc(); "{long}")?.as_str(),
        "fault 13 program 0 0"
    );
    Ok(())
}
