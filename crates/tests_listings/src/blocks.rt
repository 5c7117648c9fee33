//! How a listing is cut into blocks, whichever way its bytes come.
use crate::readers::{Broken, Slow};
use crate::reported::{is_text, reported_by, reports};
use acl_listings::{Blocks, ReadFault};
use std::alloc::Global;
use std::io::Read;
use std::test::Fail;

/// The numbers, below 10, and the texts of a reader's blocks: `NUMBER:TEXT|` of each, and `!` for a
/// read that fails. None if memory is refused.
fn cut<R: Read + Drop>(alloc: Global, reader: R) -> Option<Vec<u8>> {
    let mut out = Vec::new(alloc);
    let mut blocks = Blocks::new(alloc, reader).ok()?;
    for _ in 0..u64::MAX {
        match blocks.advance() {
            Ok(true) => {
                out.push(u8::try_from(blocks.line()).ok()?.saturating_add(b'0'))
                    .ok()?;
                out.push(b':').ok()?;
                out.extend_from_slice(blocks.text()).ok()?;
                out.push(b'|').ok()?;
            }
            Ok(false) => return Some(out),
            Err(ReadFault::Read) => {
                out.push(b'!').ok()?;
                return Some(out);
            }
            Err(ReadFault::Memory) => return None,
        }
    }
    None
}

/// Whether the listing is cut so, whether it comes at once or byte by byte.
fn is_cut(alloc: Global, listing: &[u8], wanted: &[u8]) -> bool {
    is_text(cut(alloc, listing), wanted) && is_text(cut(alloc, Slow::new(listing)), wanted)
}

#[test]
fn at_empty_lines(rt: HostRuntime) -> Result<(), Fail> {
    let alloc = rt.alloc();
    assert!(rt; is_cut(alloc, b"", b""));
    assert!(rt; is_cut(alloc, b"\n", b""));
    assert!(rt; is_cut(alloc, b"\n\n\n", b""));
    assert!(rt; is_cut(alloc, b"a", b"1:a|"));
    assert!(rt; is_cut(alloc, b"a\n", b"1:a|"));
    assert!(rt; is_cut(alloc, b"a\n\n", b"1:a|"));
    assert!(rt; is_cut(alloc, b"\na\n", b"2:a|"));
    assert!(rt; is_cut(alloc, b"a\nb\n\nc", b"1:a\nb|4:c|"));
    assert!(rt; is_cut(alloc, b"\n\na\nb\n\n\nc\n\nd\ne\n", b"3:a\nb|7:c|9:d\ne|"));
    // A line with a blank or a carriage return isn't empty.
    assert!(rt; is_cut(alloc, b"a\n \nb\n\r\nc", b"1:a\n \nb\n\r\nc|"));
    Ok(())
}

#[test]
fn a_read_that_fails(rt: HostRuntime) -> Result<(), Fail> {
    let alloc = rt.alloc();
    // What was read as a whole before is handed out.
    let reported = cut(alloc, Broken::new(b"a\n\nb\n\nc\n"));
    assert!(rt; is_text(reported, b"1:a|3:b|!"));
    let reported = cut(alloc, Broken::new(b""));
    assert!(rt; is_text(reported, b"!"));
    Ok(())
}

#[test]
fn a_fault_lasts(rt: HostRuntime) -> Result<(), Fail> {
    let mut blocks = Blocks::new(rt.alloc(), Broken::new(b"a\n\nb"))?;
    assert_eq!(rt; blocks.advance(), Ok(true));
    assert_eq!(rt; blocks.advance(), Err(ReadFault::Read));
    assert_eq!(rt; blocks.advance(), Err(ReadFault::Read));
    Ok(())
}

#[test]
fn the_end_lasts(rt: HostRuntime) -> Result<(), Fail> {
    let mut blocks = Blocks::new(rt.alloc(), b"a".as_slice())?;
    assert!(rt; blocks.text().is_empty());
    assert_eq!(rt; blocks.advance(), Ok(true));
    assert!(rt; blocks.text() == b"a".as_slice());
    assert_eq!(rt; blocks.advance(), Ok(false));
    assert_eq!(rt; blocks.advance(), Ok(false));
    Ok(())
}

const TWO: &[u8] = b"# file: x
# owner: 0
# group: 0
u::r,g::w,o::x

# file: y
# owner: 1
# group: 1
u::x,g::w,o::r";

const TWO_REPORT: &[u8] = b"1 x 0 0 u::r--,g::-w-,o::--x\n6 y 1 1 u::--x,g::-w-,o::r--\n";

#[test]
fn byte_by_byte(rt: HostRuntime) -> Result<(), Fail> {
    let alloc = rt.alloc();
    assert!(rt; reports(alloc, TWO, TWO_REPORT));
    assert!(rt; is_text(reported_by(alloc, Slow::new(TWO)), TWO_REPORT));
    Ok(())
}

#[test]
fn by_reference(rt: HostRuntime) -> Result<(), Fail> {
    let alloc = rt.alloc();
    let mut reader = Slow::new(TWO);
    assert!(rt; is_text(reported_by(alloc, &mut reader), TWO_REPORT));
    // The reader is at its end.
    assert!(rt; is_text(reported_by(alloc, &mut reader), b""));
    Ok(())
}
