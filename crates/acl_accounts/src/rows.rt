//! The lines of an accounts file: those of passwd and of group.

ghost use Rattle.std.specs.Prelude.{◌≡◌, ◌≢◌, ◌≤◌, length, option_map, IfOk, IfErr, Ok, Err};
ghost use Rattle.acl_names.specs.Bytes.{colon};
ghost use Rattle.acl_names.specs.Pieces.{parts};
ghost use Rattle.acl_accounts.specs.Rows.{group_row, is_mark, is_numeric, is_read_at_login};
ghost use Rattle.acl_accounts.specs.Rows.{members_of, names_nobody, number_of, row_behind_space};
ghost use Rattle.acl_accounts.specs.Rows.{row_of, row_of_fields, rows_of_lines, user_row};
ghost use Rattle.acl_accounts.specs.Views.{view_row, view_rows};
ghost use Rattle.acl_accounts.specs.declared.limits.TheConstants.{MAX_ACCOUNTS_TEXT};
ghost use Rattle.acl_accounts.specs.declared.fault.AccountsFault.TheVariants.{Memory};

use crate::fault::AccountsFault;
use crate::limits::{MAX_ACCOUNT_GROUPS, MAX_ACCOUNT_USERS};
use crate::space::{is_space, skip_space};
use crate::written::is_account_name;
use acl_names::{Gid, Parts, Uid, read_decimal};
use std::alloc::Global;

/// A line of passwd: a user, and the user's primary group.
#[derive(Clone, Copy, Debug)]
pub(crate) struct UserRow<'t> {
    pub name: &'t [u8],
    pub uid: Uid,
    pub gid: Gid,
}

/// A line of group: a group, and the names of its members, with commas between them.
#[derive(Clone, Copy, Debug)]
pub(crate) struct GroupRow<'t> {
    pub name: &'t [u8],
    pub gid: Gid,
    pub members: &'t [u8],
    /// The line's number.
    pub line: usize,
}

/// What a line holds.
#[derive(Clone, Copy, Debug)]
pub(crate) enum Row<'t> {
    User(UserRow<'t>),
    Group(GroupRow<'t>),
    /// Nothing: the line is skipped.
    Passed,
}

/// The users and the groups, in the order of the file.
#[derive(Debug, Drop)]
pub(crate) struct Rows<'t> {
    pub users: Vec<UserRow<'t>>,
    pub groups: Vec<GroupRow<'t>>,
}

/// The rows of a text, up to the first line that is malformed or one too many.
pub(crate) fn read_rows(alloc: Global, text: &[u8]) -> Result<Rows<'_>, AccountsFault>
    requires { length text.now ≤ MAX_ACCOUNTS_TEXT }
    ensures read { IfOk result (λ rows. rows_of_lines text.now ≡ Ok (view_rows rows)) }
    ensures fault { IfErr result (λ fault. (fault ≢ Memory) → rows_of_lines text.now ≡ Err fault) }
{
    let mut users = Vec::new(alloc);
    let mut groups = Vec::new(alloc);
    let mut lines = Parts::new(b'\n', text);
    let mut number: usize = 1;
    while let Some(line) = lines.next() {
        match read_row(number, line) {
            Some(Row::User(row)) => {
                if users.len() >= MAX_ACCOUNT_USERS {
                    return Err(AccountsFault::TooMany);
                }
                if users.push(row).is_err() {
                    return Err(AccountsFault::Memory);
                }
            }
            Some(Row::Group(row)) => {
                if groups.len() >= MAX_ACCOUNT_GROUPS {
                    return Err(AccountsFault::TooMany);
                }
                if groups.push(row).is_err() {
                    return Err(AccountsFault::Memory);
                }
            }
            Some(Row::Passed) => {}
            None => return Err(AccountsFault::BadAccount(number)),
        }
        number += 1;
    }
    Ok(Rows { users, groups })
}

/// What the line of this number holds; `None` if it is malformed.
fn read_row(number: usize, line: &[u8]) -> Option<Row<'_>>
    ensures { option_map view_row result ≡ row_of number line.now }
{
    // C would end the line there.
    if line.contains(&0) {
        return None;
    }
    read_behind_space(number, skip_space(line))
}

/// The same for a line without a zero byte and without white space in front.
fn read_behind_space(number: usize, line: &[u8]) -> Option<Row<'_>>
    ensures { option_map view_row result ≡ row_behind_space number line.now }
{
    let [byte, ..] = line else {
        return Some(Row::Passed);
    };
    if !is_mark(*byte) {
        return read_fields(number, line);
    }
    if is_read_at_login(line) {
        return None;
    }
    Some(Row::Passed)
}

/// Whether a line that begins so is a comment, or names another source.
fn is_mark(byte: u8) -> bool
    ensures { result ≡ is_mark byte }
{
    byte == b'#' || byte == b'+' || byte == b'-'
}

/// Whether the system reads a line despite its mark at login, as a group with members: glibc
/// ignores marks when it looks up a user's groups.
#[tactic(auto, unfolding(crate::specs::Rows::is_read_at_login))]
fn is_read_at_login(line: &[u8]) -> bool
    ensures { result ≡ is_read_at_login (parts colon line.now) }
{
    let mut fields = Parts::new(b':', line);
    match (
        fields.next(),
        fields.next(),
        fields.next(),
        fields.next(),
        fields.next(),
        fields.next(),
        fields.next(),
        fields.next(),
    ) {
        (Some(_), Some(_), Some(number), Some(members), None, _, _, _) => {
            is_numeric(number) && !names_nobody(members)
        }
        (Some(_), Some(_), Some(uid), Some(gid), Some(_), Some(_), Some(_), None) => {
            is_numeric(uid) && !is_numeric(gid)
        }
        (Some(_), Some(_), Some(number), Some(_), _, _, _, _) => is_numeric(number),
        _ => false,
    }
}

/// Whether a field has only digits, signs and white space.
pub(crate) fn is_numeric(field: &[u8]) -> bool
    ensures { result ≡ is_numeric field.now }
{
    field.iter().all(|byte| {
        byte.is_ascii_digit() || *byte == b'+' || *byte == b'-' || is_space(*byte)
    })
}

/// Whether a field has only white space and commas.
fn names_nobody(field: &[u8]) -> bool
    ensures { result ≡ names_nobody field.now }
{
    field.iter().all(|byte| is_space(*byte) || *byte == b',')
}

/// `name:x:uid:gid:gecos:home:shell`, or `name:x:gid:member,member`.
#[tactic(auto, unfolding(crate::specs::Rows::row_of_fields))]
fn read_fields(number: usize, line: &[u8]) -> Option<Row<'_>>
    ensures { option_map view_row result ≡ row_of_fields number (parts colon line.now) }
{
    let mut fields = Parts::new(b':', line);
    match (
        fields.next(),
        fields.next(),
        fields.next(),
        fields.next(),
        fields.next(),
        fields.next(),
        fields.next(),
        fields.next(),
    ) {
        (Some(name), Some(_), Some(gid), Some(members), None, _, _, _) => {
            read_group(number, name, gid, members)
        }
        (Some(name), Some(_), Some(uid), Some(gid), Some(_), Some(_), Some(_), None) => {
            read_user(name, uid, gid)
        }
        _ => None,
    }
}

fn read_user<'t>(name: &'t [u8], uid: &[u8], gid: &[u8]) -> Option<Row<'t>>
    ensures { option_map view_row result
        ≡ user_row name.now (number_of uid.now) (number_of gid.now) }
{
    match (read_uid(uid), read_gid(gid)) {
        (Some(uid), Some(gid)) => {
            if is_account_name(name) {
                Some(Row::User(UserRow { name, uid, gid }))
            } else {
                None
            }
        }
        _ => None,
    }
}

fn read_group<'t>(line: usize, name: &'t [u8], gid: &[u8], members: &'t [u8]) -> Option<Row<'t>>
    ensures { option_map view_row result
        ≡ group_row line name.now (number_of gid.now) (members_of members.now) }
{
    match read_gid(gid) {
        Some(gid) => {
            if is_account_name(name) {
                Some(Row::Group(GroupRow {
                    name,
                    gid,
                    members,
                    line,
                }))
            } else {
                None
            }
        }
        None => None,
    }
}

fn read_uid(field: &[u8]) -> Option<Uid>
    ensures { result ≡ number_of field.now }
{
    Uid::new(read_decimal(skip_space(field))?)
}

fn read_gid(field: &[u8]) -> Option<Gid>
    ensures { result ≡ number_of field.now }
{
    Gid::new(read_decimal(skip_space(field))?)
}
