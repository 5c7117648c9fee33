//! Standard error: what goes there, that nothing does after a write that failed, and that a write
//! is reported as failed only if it did.
use acl_cli::{ErrorOutput, Failure, RunFault};

/// Writes a line of these words to so much room. Whether a write failed.
fn fails_in(room: &mut [u8], words: &str, more: &str) -> bool {
    let mut err = ErrorOutput::new(room);
    err.write_pair(words, more);
    err.has_failed()
}

#[test]
fn a_line_has_its_words(rt: HostRuntime) {
    let mut room = [0u8; 22];
    assert!(rt; !fails_in(room.as_mut_slice(), "cannot read ", "x"));
    assert_eq!(rt; room.as_slice(), b"aclctl: cannot read x\n".as_slice());
}

#[test]
fn a_line_is_cut_where_a_write_fails(rt: HostRuntime) {
    let mut room = [0u8; 12];
    assert!(rt; fails_in(room.as_mut_slice(), "bad-", "id"));
    assert_eq!(rt; room.as_slice(), b"aclctl: bad-".as_slice());
}

/// The second write would have room.
#[test]
fn nothing_goes_out_after_a_failed_write(rt: HostRuntime) {
    let mut room = [b'-'; 4];
    let mut left = room.as_mut_slice();
    let mut err = ErrorOutput::new(&mut left);
    err.write_text(b"12345");
    assert!(rt; err.has_failed());
    assert_eq!(rt; room.as_slice(), b"1234".as_slice());
}

/// The exit status where a lacking thread is reported to so much room, and whether a write failed.
fn reported_in(room: &mut [u8]) -> (u8, bool) {
    let mut err = ErrorOutput::new(room);
    let failure = Failure::Lacks(RunFault::NoThread);
    failure.report(&mut err);
    (failure.status(), err.has_failed())
}

#[test]
fn a_failed_write_changes_no_status(rt: HostRuntime) {
    let mut room = [0u8; 23];
    for (bytes, has_failed) in [(23, false), (22, true), (0, true)] {
        assert_eq!(rt; reported_in(&mut room[..bytes]), (3, has_failed));
    }
    assert_eq!(rt; room.as_slice(), b"aclctl: run: no thread\n".as_slice());
}
