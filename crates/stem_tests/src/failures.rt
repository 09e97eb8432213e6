// Writers that fail, and a reader of the output that goes away.
use crate::logs::ONE_VOICE;
use render::stem::{run, unless_reader_left};
use std::io::{Error, ErrorKind};

#[test]
fn no_room_for_the_output(rt: HostRuntime) {
    let text = b"512 256\n512 256\nend\n";
    for room in 0..text.len() {
        let mut bytes = [b'.'; 20];
        let mut output = &mut bytes[..room];
        let written = run(rt.alloc(), ONE_VOICE.as_slice(), &mut output);
        assert_eq!(rt; written.err().map(|e| e.kind()), Some(ErrorKind::WriteZero));
    }
}

#[test]
fn reader_gone(rt: HostRuntime) {
    let kinds = [
        (ErrorKind::BrokenPipe, None),
        (ErrorKind::WriteZero, Some(ErrorKind::WriteZero)),
        (ErrorKind::StorageFull, Some(ErrorKind::StorageFull)),
    ];
    for (kind, left) in kinds {
        let settled = unless_reader_left(Err(Error::from(kind)));
        assert_eq!(rt; settled.err().map(|e| e.kind()), left);
    }
    assert!(rt; unless_reader_left(Ok(())).is_ok());
}
