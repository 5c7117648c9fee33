//! How a line at fault is shown.
use acl_names::push_shown;
use std::alloc::Global;

fn is_shown(alloc: Global, line: &[u8], wanted: &[u8]) -> Option<bool> {
    let mut out = Vec::new(alloc);
    out.push(b'>').ok()?;
    push_shown(line, &mut out).ok()?;
    Some(out.as_slice() == wanted)
}

#[test]
fn bytes(rt: HostRuntime) {
    const ROWS: [(&[u8], &[u8]); 5] = [
        (b"", b">"),
        (b"# file: srv/plans~", b"># file: srv/plans~"),
        (b"a\\b\tc\r", b">a\\b\\011c\\015"),
        (b"\x00\x1f\x7f\x80\xff", b">\\000\\037\\177\\200\\377"),
        (b"\xc3\xa9", b">\\303\\251"),
    ];
    for (line, wanted) in ROWS {
        assert_eq!(rt; is_shown(rt.alloc(), line, wanted), Some(true));
    }
}

/// How many bytes are shown of a line of so many that are as they are.
fn shown_of(alloc: Global, count: usize) -> Option<usize> {
    let mut line = Vec::new(alloc);
    line.resize(count, b'x').ok()?;
    let mut out = Vec::new(alloc);
    push_shown(&line, &mut out).ok()?;
    Some(out.len())
}

#[test]
fn lengths(rt: HostRuntime) {
    const ROWS: [(usize, usize); 4] = [(1, 1), (199, 199), (200, 200), (201, 200)];
    for (count, wanted) in ROWS {
        assert_eq!(rt; shown_of(rt.alloc(), count), Some(wanted));
    }
}
