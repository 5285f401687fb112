//! Bytes that spell no variables.
use std::alloc::Global;
use tks_codec_variables::variables_of;
use tks_spelling::Unread;

// How many bytes are left from the one at fault on; none where they are read.
fn left(alloc: Global, bytes: &[u8]) -> Option<usize> {
    match variables_of(alloc, bytes) {
        Err(Unread::Left(left)) => Some(left),
        _ => None,
    }
}

#[test]
fn faults(rt: HostRuntime) {
    // They end too early.
    assert!(rt; left(rt.alloc(), b"\x00\x00\x00\x00\x00\x00\x00") == Some(0));
    // The tag 2.
    assert!(rt;
        left(
            rt.alloc(),
            b"\x00\x00\x00\x01\x00\x00\x00\x01x\x02\x00\x00\x00\x00"
        ) == Some(5)
    );
    // A name twice.
    assert!(rt;
        left(
            rt.alloc(),
            b"\x00\x00\x00\x02\x00\x00\x00\x01x\x00\x00\x00\x00\x00\x00\x00\x00\x01x\x00\x00\x00\x00\x00\x00"
        ) == Some(2)
    );
    // A name before the one before it.
    assert!(rt;
        left(
            rt.alloc(),
            b"\x00\x00\x00\x02\x00\x00\x00\x01y\x00\x00\x00\x00\x00\x00\x00\x00\x01x\x00\x00\x00\x00\x00\x00"
        ) == Some(2)
    );
    // A byte that stands in no text.
    assert!(rt;
        left(
            rt.alloc(),
            b"\x00\x00\x00\x01\x00\x00\x00\x01\x80\x00\x00\x00\x00\x00"
        ) == Some(6)
    );
}
