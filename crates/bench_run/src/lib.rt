//! The call that bench/run times: sessions on one tree, one after the other. Nothing here is part
//! of the service.
#![tactic(auto)]

use acl_lang::MAX_TEXT_LEN;
use acl_service::run_one;
use acl_setup::read_setup;
use std::alloc::Global;

/// Writes what the sessions print, each after the one before, and answers how long that is.
fn run_in_turn(
    alloc: Global,
    setup: &[u8],
    texts: &[u8],
    lengths: &[usize],
    printed: &mut [u8],
) -> Option<usize> {
    let (directory, tree) = read_setup(alloc, setup).ok()?;
    let room = printed.len();
    let mut out = printed;
    let mut tree = tree;
    let mut rest = texts;
    for length in lengths {
        let (text, more) = rest.split_at_checked(*length)?;
        if text.len() > MAX_TEXT_LEN {
            return None;
        }
        tree = run_one(alloc, &directory, tree, text, &mut out).ok()?;
        rest = more;
    }
    room.checked_sub(out.len())
}

/// Opens the setup and runs the sessions of the texts, which stand one after the other and have
/// these lengths, on its tree: all of the first, then all of the second, and so on. What they print
/// goes to `printed`; the answer is how long that is, and 0 where the setup or a length is refused,
/// or memory or room runs out.
#[unsafe(no_mangle)]
pub extern "C" fn run_prints(
    alloc: Global,
    setup: &[u8],
    texts: &[u8],
    lengths: &[usize],
    printed: &mut [u8],
) -> usize {
    run_in_turn(alloc, setup, texts, lengths, printed).unwrap_or(0)
}
