//! Blocks as long as they may be, and longer.
use crate::readers::Slow;
use crate::reported::{block_reports, is_text, reported_by, reports};
use acl_listings::{BlockFault, Blocks, FileFault, Lists, path_of, read_file};
use std::alloc::Global;
use std::io::{self, Read};
use std::test::Fail;
use tests_common::directory;

const HEADER: &[u8] = b"# file: x\n# owner: 0\n# group: 0\nu::r,g::w,o::x\n#";

/// A block of so many bytes, of which the last are a comment.
fn block_of(alloc: Global, len: usize) -> Option<Vec<u8>> {
    let mut block = Vec::with_capacity(alloc, len).ok()?;
    block.extend_from_slice(HEADER).ok()?;
    block.resize(len, b'-').ok()?;
    Some(block)
}

/// A listing of a block of so many bytes, behind another and before a third.
fn listing_of(alloc: Global, len: usize, end: &[u8]) -> Option<Vec<u8>> {
    let mut listing = Vec::new(alloc);
    listing.extend_from_slice(b"a\n\n").ok()?;
    listing.extend_from_slice(&block_of(alloc, len)?).ok()?;
    listing.extend_from_slice(end).ok()?;
    Some(listing)
}

/// Whether a listing with a block of so many bytes reports this.
fn listing_reports(alloc: Global, len: usize, end: &[u8], wanted: &[u8]) -> bool {
    match listing_of(alloc, len, end) {
        Some(listing) => reports(alloc, &listing, wanted),
        None => false,
    }
}

#[test]
fn just_long_enough_and_too_long(rt: HostRuntime) -> Result<(), Fail> {
    let alloc = rt.alloc();
    let read = b"1 fault bad-header -\n3 x 0 0 u::r--,g::-w-,o::--x\n";
    let refused = b"1 fault bad-header -\n3 fault too-long x\n";
    for end in [b"".as_slice(), b"\n", b"\n\n"] {
        assert!(rt; listing_reports(alloc, 65_536, end, read));
        assert!(rt; listing_reports(alloc, 65_537, end, refused));
        assert!(rt; listing_reports(alloc, 65_538, end, refused));
        assert!(rt; listing_reports(alloc, 131_071, end, refused));
        assert!(rt; listing_reports(alloc, 131_072, end, refused));
        assert!(rt; listing_reports(alloc, 131_073, end, refused));
        assert!(rt; listing_reports(alloc, 400_000, end, refused));
    }
    Ok(())
}

#[test]
fn what_follows_a_long_one(rt: HostRuntime) -> Result<(), Fail> {
    let alloc = rt.alloc();
    let end = b"\nb\n\n\nc\nd\n\n# file: y\n# owner: 0\n# group: 0\nu::r,g::w,o::x\n";
    let wanted = b"1 fault bad-header -
3 fault too-long x
11 fault bad-header -
14 y 0 0 u::r--,g::-w-,o::--x
";
    assert!(rt; listing_reports(alloc, 65_537, end, wanted));
    assert!(rt; listing_reports(alloc, 300_000, end, wanted));
    Ok(())
}

/// Whether a listing with a block of so many bytes reports this if it comes in small pieces.
fn reports_slowly(alloc: Global, len: usize, wanted: &[u8]) -> bool {
    match listing_of(alloc, len, b"\n") {
        Some(listing) => is_text(reported_by(alloc, Slow::by(16, &listing)), wanted),
        None => false,
    }
}

#[test]
fn blocks_in_many_pieces(rt: HostRuntime) -> Result<(), Fail> {
    let alloc = rt.alloc();
    let read = b"1 fault bad-header -\n3 x 0 0 u::r--,g::-w-,o::--x\n";
    assert!(rt; reports_slowly(alloc, 65_536, read));
    let refused = b"1 fault bad-header -\n3 fault too-long x\n";
    assert!(rt; reports_slowly(alloc, 100_000, refused));
    Ok(())
}

#[test]
fn many_empty_lines(rt: HostRuntime) -> Result<(), Fail> {
    let lines = io::repeat(b'\n').take(2_000_000);
    let reported = reported_by(rt.alloc(), lines.chain(b"a".as_slice()));
    assert!(rt; is_text(reported, b"2000001 fault bad-header -\n"));
    Ok(())
}

#[test]
fn a_long_first_line(rt: HostRuntime) -> Result<(), Fail> {
    let alloc = rt.alloc();
    let mut line = Vec::new(alloc);
    line.extend_from_slice(b"# file: ")?;
    line.resize(65_536, b'x')?;
    // As long as a block may be: it has a path, and no header.
    assert!(rt; path_of(&line).is_some_and(|path| path.len() == 65_528));
    line.extend_from_slice(b"\n# owner: 0")?;
    assert!(rt; path_of(&line).is_some_and(|path| path.len() == 65_528));
    // One byte more: none.
    line.insert(9, b'x')?;
    assert!(rt; path_of(&line).is_none());
    assert!(rt; reports(alloc, &line, b"1 fault too-long -\n"));
    Ok(())
}

/// Whether the text of a long block is its front, of which the fault is reported.
fn front_is_at_hand(alloc: Global) -> Option<bool> {
    let names = directory(alloc)?;
    let block = block_of(alloc, 200_000)?;
    let mut blocks = Blocks::new(alloc, block.as_slice()).ok()?;
    let some = blocks.advance().ok()?;
    let read = read_file(alloc, blocks.text(), &names);
    let is_refused = matches!(&read, Err(FileFault::Block(BlockFault::TooLong)));
    Some(some && is_refused && Some(blocks.text()) == block.get(..65_537))
}

#[test]
fn the_text_of_a_long_one(rt: HostRuntime) -> Result<(), Fail> {
    assert_eq!(rt; front_is_at_hand(rt.alloc()), Some(true));
    Ok(())
}

/// A block of four entries and so many users.
fn with_entries(alloc: Global, count: u8) -> Option<Vec<u8>> {
    let mut block = Vec::new(alloc);
    block
        .extend_from_slice(b"# file: x\n# owner: 0\n# group: 0\nu::r\ng::w\no::x\nm::r\n")
        .ok()?;
    for id in 0..count {
        block.extend_from_slice(b"u:1").ok()?;
        block.push(b'0' + id / 10 % 10).ok()?;
        block.push(b'0' + id % 10).ok()?;
        block.extend_from_slice(b":r\n").ok()?;
    }
    Some(block)
}

/// How many entries the list of such a block has.
fn entries_of(alloc: Global, count: u8) -> Option<usize> {
    let names = directory(alloc)?;
    let block = with_entries(alloc, count)?;
    let file = read_file(alloc, &block, &names).ok()?;
    match file.lists {
        Lists::Posix { access, .. } => Some(access.entries().len()),
        Lists::Nfs4 { .. } => None,
    }
}

/// Whether such a block has too many.
fn has_too_many(alloc: Global, count: u8) -> Option<bool> {
    let block = with_entries(alloc, count)?;
    Some(block_reports(alloc, &block, b"fault too-many x"))
}

#[test]
fn entries(rt: HostRuntime) -> Result<(), Fail> {
    let alloc = rt.alloc();
    assert_eq!(rt; entries_of(alloc, 60), Some(64));
    assert_eq!(rt; has_too_many(alloc, 60), Some(false));
    assert_eq!(rt; has_too_many(alloc, 61), Some(true));
    Ok(())
}
