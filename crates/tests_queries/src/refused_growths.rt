//! Calls that may run out of memory: one failed allocation, wherever it falls, is reported by the
//! call in which it falls, and the call may be made again.
//!
//! `rt try --test --fail-alloc N` fails allocation N of a test. Each test here passes whichever
//! growth that is, and prints how many failures it saw: one up to the last allocation that it asks
//! for, and none from then on.
use acl_cli::{CapFault, WordsFault, read_capped, words_of};
use std::alloc::Global;
use std::io::{self, Read};
use std::test::Fail;

/// Reads more than one piece.
fn read(alloc: Global) -> Result<Vec<u8>, CapFault> {
    read_capped(alloc, &mut io::repeat(b'x').take(100_000), 100_000)
}

#[test]
fn read_capped_under_a_refused_growth(rt: HostRuntime) -> Result<(), Fail> {
    let mut refusals = 0;
    let mut outcome = read(rt.alloc());
    if let Err(CapFault::Memory) = outcome {
        refusals = 1;
        outcome = read(rt.alloc());
    }
    assert_eq!(rt; outcome?.len(), 100_000);
    println!(rt; "refusals: {refusals}")?;
    Ok(())
}

fn words(alloc: Global) -> Result<Vec<String>, WordsFault> {
    words_of(alloc, b"one\ntwo\nthree\nfour\nfive\nsix\n".as_slice())
}

#[test]
fn words_of_under_a_refused_growth(rt: HostRuntime) -> Result<(), Fail> {
    let mut refusals = 0;
    let mut outcome = words(rt.alloc());
    if let Err(WordsFault::Memory) = outcome {
        refusals = 1;
        outcome = words(rt.alloc());
    }
    assert_eq!(rt; outcome?.len(), 6);
    println!(rt; "refusals: {refusals}")?;
    Ok(())
}
