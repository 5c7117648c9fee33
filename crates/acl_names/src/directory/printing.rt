//! Printing ids: by the directory's names, or in decimal.

ghost use Rattle.std.specs.Prelude.{◌≡◌, ◌≤◌, ◌+◌, ◌++◌, length, option_map, unwrap_or};
ghost use Rattle.std.specs.Prelude.{decimal, vec_len, vec_capacity, IfSome};
ghost use Rattle.acl_names.specs.Pushing.{PushesInRoom};
ghost use Rattle.acl_names.specs.declared.limits.TheConstants.{MAX_ID, MAX_NAME_LEN};

use crate::{Directory, Gid, Uid, push_decimal, put_bytes, put_decimal};
use std::alloc::AllocError;

/// Appends the name, or the id in decimal if `name` is `None`. Fails only if memory runs out, and
/// never if `out` has room for the text; what `out` held stays in front.
pub fn push_id(name: Option<&str>, id: u32, out: &mut Vec<u8>) -> Result<(), AllocError>
    ensures { PushesInRoom (unwrap_or (option_map (λ bytes. bytes.now) name.entry) (decimal id))
        result out.old out.new }
{
    match name {
        Some(name) => out.extend_from_slice(name.as_bytes()),
        None => push_decimal(id, out),
    }
}

/// Appends the name, or the id in decimal if `name` is `None`. The name may have at most
/// `MAX_NAME_LEN` bytes, for which `out` must have room.
#[inline(always)]
fn put_id(name: Option<&str>, id: u32, out: &mut Vec<u8>)
    requires room { vec_len out.old + MAX_NAME_LEN ≤ vec_capacity out.old }
    requires short { IfSome name (λ bytes. length bytes.now ≤ MAX_NAME_LEN) }
    ensures text { out.new.items ≡ out.old.items
        ++ unwrap_or (option_map (λ bytes. bytes.now) name.entry) (decimal id) }
    ensures len { vec_len out.new ≤ vec_len out.old + MAX_NAME_LEN }
    ensures capacity { vec_capacity out.new ≡ vec_capacity out.old }
{
    match name {
        Some(name) => put_bytes(name.as_bytes(), out),
        None => put_decimal(id, out),
    }
}

impl Directory {
    ghost use Rattle.acl_names.specs.Directory.{group_name, user_name};
    ghost use Rattle.acl_names.specs.Ids.{id_text};

    /// Appends the name of the user with this uid, or the uid in decimal if no user has it. `out`
    /// must have room for `MAX_NAME_LEN` bytes.
    #[inline(always)]
    pub fn put_user(&self, uid: Uid, out: &mut Vec<u8>)
        requires { vec_len out.old + MAX_NAME_LEN ≤ vec_capacity out.old }
        ensures text { out.new.items ≡ out.old.items ++ id_text (user_name self.now) uid }
        ensures in_range { uid ≤ MAX_ID }
        ensures len { vec_len out.new ≤ vec_len out.old + MAX_NAME_LEN }
        ensures capacity { vec_capacity out.new ≡ vec_capacity out.old }
    {
        self.names_read_back();
        put_id(self.user_name(uid), uid.value(), out);
    }

    /// Appends the name of the group with this gid, or the gid in decimal if no group has it. `out`
    /// must have room for `MAX_NAME_LEN` bytes.
    #[inline(always)]
    pub fn put_group(&self, gid: Gid, out: &mut Vec<u8>)
        requires { vec_len out.old + MAX_NAME_LEN ≤ vec_capacity out.old }
        ensures text { out.new.items ≡ out.old.items ++ id_text (group_name self.now) gid }
        ensures in_range { gid ≤ MAX_ID }
        ensures len { vec_len out.new ≤ vec_len out.old + MAX_NAME_LEN }
        ensures capacity { vec_capacity out.new ≡ vec_capacity out.old }
    {
        self.names_read_back();
        put_id(self.group_name(gid), gid.value(), out);
    }
}
