//! Accounts that are many.
use acl_accounts::{Accounts, AccountsFault, MAX_ACCOUNTS_TEXT};
use acl_names::push_decimal;
use std::alloc::{AllocError, Global};

/// So many groups, each of which has the user as a member, from the highest gid down, and the user.
fn groups_with_one(alloc: Global, count: u32) -> Result<Vec<u8>, AllocError> {
    let mut text = Vec::new(alloc);
    for number in 0..count {
        text.extend_from_slice(b"g")?;
        push_decimal(number, &mut text)?;
        text.extend_from_slice(b":x:")?;
        push_decimal(count - number, &mut text)?;
        text.extend_from_slice(b":other,user\n")?;
    }
    text.extend_from_slice(b"user:x:1:1000:::\n")?;
    Ok(text)
}

/// The gids of the only user: the first and the last, and how many there are.
fn gids_of_one(alloc: Global, count: u32) -> Option<(u32, u32, usize)> {
    let text = groups_with_one(alloc, count).ok()?;
    let accounts = Accounts::read(alloc, &text).ok()?;
    let gids = accounts.requesters().first()?.gids();
    Some((gids.first()?.value(), gids.last()?.value(), gids.len()))
}

/// A user may be in as many groups as there are, in the order of the file.
#[test]
fn a_user_in_300_groups(rt: HostRuntime) {
    assert_eq!(rt; gids_of_one(rt.alloc(), 300), Some((1000, 1, 301)));
}

/// The same line so many times, and how many users and groups are read, or why not.
fn read_again(alloc: Global, line: &[u8], count: u32) -> Result<(usize, usize), AccountsFault> {
    let mut text = Vec::new(alloc);
    for _ in 0..count {
        text.extend_from_slice(line)?;
    }
    let accounts = Accounts::read(alloc, &text)?;
    Ok((accounts.users().len(), accounts.groups().len()))
}

/// Lines count toward the limits, also those of a name that comes twice.
#[test]
fn as_many_as_may_be(rt: HostRuntime) {
    const USER: &[u8] = b"u:x:1:1:::\n";
    const GROUP: &[u8] = b"g:x:1:\n";
    let alloc = rt.alloc();
    assert_eq!(rt; read_again(alloc, USER, 65_536), Ok((1, 0)));
    assert_eq!(rt; read_again(alloc, GROUP, 65_536), Ok((0, 1)));
    assert_eq!(rt;
        read_again(alloc, USER, 65_537),
        Err(AccountsFault::TooMany)
    );
    assert_eq!(rt;
        read_again(alloc, GROUP, 65_537),
        Err(AccountsFault::TooMany)
    );
}

/// A text of so many bytes, all of them `#`.
fn read_comment(alloc: Global, size: usize) -> Result<usize, AccountsFault> {
    let text = Vec::from_elem(alloc, b'#', size)?;
    let accounts = Accounts::read(alloc, &text)?;
    Ok(accounts.users().len())
}

#[test]
fn as_long_as_may_be(rt: HostRuntime) {
    let alloc = rt.alloc();
    assert_eq!(rt; read_comment(alloc, MAX_ACCOUNTS_TEXT), Ok(0));
    assert_eq!(rt;
        read_comment(alloc, MAX_ACCOUNTS_TEXT + 1),
        Err(AccountsFault::TooMany)
    );
}
