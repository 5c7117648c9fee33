//! The users and groups of a directory, as an accounts file has them.
ghost use Rattle.std.specs.Prelude.{◌≡◌, ◌++◌, None, OnOk, Ok, bytes_eq, string_bytes};
ghost use Rattle.std.specs.List.{join_with_byte, list_any};
ghost use Rattle.acl_names.specs.Bytes.{comma};
ghost use Rattle.acl_names.specs.Directory.{fault_of};
ghost use Rattle.acl_accounts.specs.Rows.{rows_of};
ghost use Rattle.acl_accounts.specs.Text.{rows_text};
ghost use Rattle.acl_tree_queries.specs.AccountsText.{Adds, HasGid, HasIds, behind_comma};
ghost use Rattle.acl_tree_queries.specs.AccountsText.{group_text, is_member, members_in};
ghost use Rattle.acl_tree_queries.specs.AccountsText.{rows_of_known, user_text};

use acl_names::{Directory, Group, NOBODY, User, push_decimal};
use std::alloc::AllocError;

/// Whether the name is among these.
fn is_among(name: &str, names: &[String]) -> bool
    ensures { result ≡ list_any (λ own. bytes_eq (string_bytes own) name.now) names.now }
{
    names.iter().any(|own| own.as_str() == name)
}

/// Whether the user is in the group of this name.
fn is_in(user: &User, group: &str) -> bool
    ensures { result ≡ is_member group.now user.now }
{
    is_among(group, &user.groups)
}

/// Appends the line of the user.
fn push_user(directory: &Directory, user: &User, out: &mut Vec<u8>) -> Result<(), AllocError>
    ensures text { OnOk result (out.new.items
        ≡ out.old.items ++ user_text directory.now user.now) }
    ensures ids { OnOk result (HasIds directory.now user.now) }
{
    let gid = match directory.first_group(user.uid) {
        Some(gid) => gid.value(),
        None => NOBODY,
    };
    out.extend_from_slice(user.name.as_bytes())?;
    out.extend_from_slice(b":x:")?;
    push_decimal(user.uid.value(), out)?;
    out.push(b':')?;
    push_decimal(gid, out)?;
    out.extend_from_slice(b":::\n")
}

/// Appends the name of one member more, behind a comma if it isn't the first.
fn push_member(first: bool, name: &str, out: &mut Vec<u8>) -> Result<(), AllocError>
    ensures { OnOk result (out.new.items ≡ out.old.items ++ behind_comma first name.now) }
{
    if !first {
        out.push(b',')?;
    }
    out.extend_from_slice(name.as_bytes())
}

/// Appends the names of the users who are in the group of this name.
fn push_members(users: &[User], group: &str, out: &mut Vec<u8>) -> Result<(), AllocError>
    ensures { OnOk result (out.new.items
        ≡ out.old.items ++ join_with_byte comma (members_in group.now users.now)) }
{
    let mut first = true;
    for user in users {
        if is_in(user, group) {
            push_member(first, user.name.as_str(), out)?;
            first = false;
        }
    }
    Ok(())
}

/// Appends the line of the group.
fn push_group(users: &[User], group: &Group, out: &mut Vec<u8>) -> Result<(), AllocError>
    ensures text { OnOk result (out.new.items
        ≡ out.old.items ++ group_text users.now group.now) }
    ensures gid { OnOk result (HasGid group.now) }
{
    out.extend_from_slice(group.name.as_bytes())?;
    out.extend_from_slice(b":x:")?;
    push_decimal(group.gid.value(), out)?;
    out.push(b':')?;
    push_members(users, group.name.as_str(), out)?;
    out.push(b'\n')?;
    Ok(())
}

/// Appends the lines of the users.
fn push_users(directory: &Directory, out: &mut Vec<u8>) -> Result<(), AllocError>
    ensures { OnOk result (Adds (user_text directory.now) (HasIds directory.now)
        directory.now.users out.old.items out.new.items) }
{
    for user in directory.users() {
        push_user(directory, user, out)?;
    }
    Ok(())
}

/// Appends the lines of the groups.
fn push_groups(directory: &Directory, out: &mut Vec<u8>) -> Result<(), AllocError>
    ensures { OnOk result (Adds (group_text directory.now.users) HasGid directory.now.groups
        out.old.items out.new.items) }
{
    for group in directory.groups() {
        push_group(directory.users(), group, out)?;
    }
    Ok(())
}

/// Appends the users and then the groups, a line for each, which are read as these.
pub(super) fn push_accounts(directory: &Directory, out: &mut Vec<u8>) -> Result<(), AllocError>
    ensures faultless { fault_of directory.now ≡ None }
    ensures text { OnOk result (out.new.items
        ≡ out.old.items ++ rows_text (rows_of_known directory.now)) }
    ensures read { OnOk result (rows_of (rows_text (rows_of_known directory.now))
        ≡ Ok (rows_of_known directory.now)) }
{
    // For the proof only: the call says that names have their shapes, and how many there may be.
    directory.is_faultless();
    push_users(directory, out)?;
    push_groups(directory, out)
}
