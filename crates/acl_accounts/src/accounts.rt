//! The users and groups of a host.

ghost use Rattle.std.specs.Prelude.{◌≡◌, ◌≢◌, ℕ, List, map, IfErr, IfOk, IfSome, IsOk, Err, Some};
ghost use Rattle.std.specs.Prelude.{bytes_eq, find, option_map};
ghost use Rattle.std.specs.Cmp.Lexicographic.{slice_cmp};
ghost use Rattle.std.specs.List.{position};
ghost use Rattle.std.specs.Option.{option_copied};
ghost use Rattle.std.specs.Ordering.{nat_cmp};
ghost use Rattle.acl_names.specs.Ascending.{IsAscending};
ghost use Rattle.acl_names.specs.Ids.{id_of_written};
ghost use Rattle.acl_accounts.specs.Accounts.{AreOf, account_named, account_of, gid_of, group_name};
ghost use Rattle.acl_accounts.specs.Accounts.{group_of, is_user_in, place_of_written, rows_within};
ghost use Rattle.acl_accounts.specs.Accounts.{uid_of, user_name};
ghost use Rattle.acl_accounts.specs.Rows.{is_cut};
ghost use Rattle.acl_accounts.specs.Views.{view_group, view_rows, view_user, view_written};
ghost use Rattle.acl_accounts.specs.declared.fault.AccountsFault.TheVariants.{Memory};

use crate::account::Account;
use crate::fault::AccountsFault;
use crate::group::AccountGroup;
use crate::guesses::{find_by_hash, place_by_hash};
use crate::index::Index;
use crate::limits::MAX_ACCOUNTS_TEXT;
use crate::members::number_alone;
use crate::named::firsts_by_name;
use crate::places::find_by_id;
use crate::requesters::requesters_of;
use crate::rows::{GroupRow, Rows, UserRow, read_rows};
use crate::written::WrittenAccount;
use acl_names::{Gid, NameFault, Requester, ResolveNames, Uid, read_decimal, read_decimal_until};
use arrayvec::ArrayVec;
use std::alloc::{AllocError, Global};
use std::marker::Model;

/// The users and groups of a host, sorted by name.
#[derive(Debug, Drop)]
pub struct Accounts {
    users: Vec<Account>,
    groups: Vec<AccountGroup>,
    /// Each user as a requester, in the order of the users.
    requesters: Vec<Requester>,
    /// Where the users are, by name and by uid.
    user_index: Index,
    /// Where the groups are, by name and by gid.
    group_index: Index,
}

impl Model for Accounts {
    ghost use Rattle.std.specs.Prelude.{nat_eq};
    ghost use Rattle.std.specs.HashMap.{get};
    ghost use Rattle.acl_accounts.specs.Accounts.{AreIndexed, KnownAccounts};

    ghost Value = { KnownAccounts };

    ghost view = { λ inside. record {
      users = inside.users.items;
      groups = inside.groups.items;
      requesters = inside.requesters.items;
    } };

    ghost invariant = { λ inside. AreIndexed
        (record {
          users = inside.users.items;
          groups = inside.groups.items;
          requesters = inside.requesters.items;
        })
        (get nat_eq inside.user_index.places) (get nat_eq inside.group_index.places) };
}

impl Accounts {
    /// Reads accounts: what `getent passwd` and `getent group` print, in any order, or what
    /// /etc/passwd and /etc/group have. The first line that is malformed or one too many decides
    /// the fault; without one, the first group line that is the rest of a user's line. `Memory`
    /// means that memory ran out.
    pub fn read(alloc: Global, text: &[u8]) -> Result<Accounts, AccountsFault>
        ensures read { IfOk result (λ accounts. IfOk (rows_within text.now)
            (λ rows. AreOf rows accounts)) }
        ensures good { IfOk result (λ _. IsOk (rows_within text.now)) }
        ensures fault { IfErr result (λ fault. (fault ≢ Memory)
            → rows_within text.now ≡ Err fault) }
    {
        if text.len() > MAX_ACCOUNTS_TEXT {
            return Err(AccountsFault::TooMany);
        }
        let rows = read_rows(alloc, text)?;
        let accounts = Accounts::from_rows(alloc, &rows)?;
        match accounts.first_cut(&rows.groups) {
            Some(line) => Err(AccountsFault::BadAccount(line)),
            None => Ok(accounts),
        }
    }

    /// The line of the first of these groups that is the rest of a user's line.
    fn first_cut(&self, groups: &[GroupRow<'_>]) -> Option<usize>
        ensures { result ≡ option_map (λ group. group.line)
            (find (λ group. is_cut (is_user_in self.now) (view_group group)) groups.now) }
    {
        let group = groups.iter().find(|group| self.is_cut(group))?;
        Some(group.line)
    }

    fn is_cut(&self, group: &GroupRow<'_>) -> bool
        ensures { result ≡ is_cut (is_user_in self.now) (view_group group.now) }
    {
        match number_alone(group.members) {
            Some(name) => self.user(name).is_none(),
            None => false,
        }
    }

    fn from_rows(alloc: Global, rows: &Rows<'_>) -> Result<Accounts, AllocError>
        ensures { IfOk result (λ accounts. AreOf (view_rows rows.now) accounts) }
    {
        let users = users_by_name(alloc, &rows.users)?;
        let groups = groups_by_name(alloc, &rows.groups)?;
        let requesters = requesters_of(alloc, &users, &rows.groups)?;
        let user_index = Index::new(alloc, &users)?;
        let group_index = Index::new(alloc, &groups)?;
        Ok(Accounts {
            users,
            groups,
            requesters,
            user_index,
            group_index,
        })
    }

    /// The users, sorted by the bytes of their names.
    pub fn users(&self) -> &[Account]
        ensures list { result.now ≡ self.now.users }
        ensures order { IsAscending (slice_cmp nat_cmp) (λ user. user.name) self.now.users }
    {
        self.users.as_slice()
    }

    /// The groups, sorted by the bytes of their names.
    pub fn groups(&self) -> &[AccountGroup]
        ensures list { result.now ≡ self.now.groups }
        ensures order { IsAscending (slice_cmp nat_cmp) (λ group. group.name) self.now.groups }
    {
        self.groups.as_slice()
    }

    /// Each user as a requester, in the order of `users`: in the primary group, and then, in the
    /// order of the file, in the others that list the user as a member. Two users with the same uid
    /// are requesters of their own.
    pub fn requesters(&self) -> &[Requester]
        ensures list { result.now ≡ self.now.requesters }
        ensures uids { map (λ requester. requester.uid) result.now
            ≡ map (λ user. user.uid) self.now.users }
    {
        self.requesters.as_slice()
    }

    /// The place, in `users` and `requesters`, of the user with the written name or uid; of users
    /// with the same uid, the first.
    pub fn user_place(&self, written: WrittenAccount<'_>) -> Option<usize>
        ensures { result ≡ place_of_written self.now (view_written written.entry) }
    {
        match written {
            WrittenAccount::Number(number) => self.user_index.places.get(&number).copied(),
            WrittenAccount::Name(name) => self.place_of_name(name),
        }
    }

    fn place_of_name(&self, name: &[u8]) -> Option<usize>
        ensures { result ≡ position (λ user. bytes_eq user.name name.now) self.now.users }
    {
        place_by_hash(&self.users, &self.user_index.guesses, name)
    }

    /// The user of this name.
    pub fn user(&self, name: &[u8]) -> Option<&Account>
        ensures { option_copied result ≡ account_named self.now name.now }
    {
        find_by_hash(&self.users, &self.user_index.guesses, name)
    }

    /// The uid of the user with this name.
    pub fn uid_of(&self, name: &[u8]) -> Option<Uid>
        ensures { result ≡ uid_of self.now name.now }
    {
        match self.user(name) {
            Some(user) => Some(user.uid),
            None => None,
        }
    }

    /// The gid of the group with this name.
    pub fn gid_of(&self, name: &[u8]) -> Option<Gid>
        ensures { result ≡ gid_of self.now name.now }
    {
        match find_by_hash(&self.groups, &self.group_index.guesses, name) {
            Some(group) => Some(group.gid),
            None => None,
        }
    }

    /// Resolves a written uid: a number is the uid itself, and a name that of the user who has it.
    /// `None` if no user has the name, or the number is too large for an id.
    pub fn uid(&self, written: WrittenAccount<'_>) -> Option<Uid>
        ensures { result ≡ id_of_written (uid_of self.now) (view_written written.entry) }
    {
        match written {
            WrittenAccount::Number(number) => Uid::new(number),
            WrittenAccount::Name(name) => self.uid_of(name),
        }
    }

    /// Resolves a written gid: a number is the gid itself, and a name that of the group that has
    /// it. `None` if no group has the name, or the number is too large for an id.
    pub fn gid(&self, written: WrittenAccount<'_>) -> Option<Gid>
        ensures { result ≡ id_of_written (gid_of self.now) (view_written written.entry) }
    {
        match written {
            WrittenAccount::Number(number) => Gid::new(number),
            WrittenAccount::Name(name) => self.gid_of(name),
        }
    }

    /// The name of the user with this uid; of users with the same uid, the first by name.
    pub fn user_name(&self, uid: Uid) -> Option<&[u8]>
        ensures name { option_map (λ name. name.now) result ≡ user_name self.now uid }
        ensures again { IfSome result (λ name. uid_of self.now name.now ≡ Some uid) }
    {
        match find_by_id(&self.users, &self.user_index.places, uid.value()) {
            Some(user) => Some(user.name()),
            None => None,
        }
    }

    /// The name of the group with this gid; of groups with the same gid, the first by name.
    pub fn group_name(&self, gid: Gid) -> Option<&[u8]>
        ensures name { option_map (λ name. name.now) result ≡ group_name self.now gid }
        ensures again { IfSome result (λ name. gid_of self.now name.now ≡ Some gid) }
    {
        match find_by_id(&self.groups, &self.group_index.places, gid.value()) {
            Some(group) => Some(group.name()),
            None => None,
        }
    }
}

/// Resolves names as getfacl writes them.
impl ResolveNames for Accounts {
    ghost use Rattle.acl_accounts.specs.Accounts.{names_of};

    ghost names = { names_of };

    fn uid_written(&self, text: &[u8]) -> Result<Uid, NameFault> {
        // Most texts are numbers, which need no room.
        if let Some(number) = read_decimal(text) {
            return self
                .uid(WrittenAccount::Number(number))
                .ok_or(NameFault::Unknown);
        }
        let mut room = ArrayVec::new();
        let written = WrittenAccount::read(text, &mut room).ok_or(NameFault::Malformed)?;
        self.uid(written).ok_or(NameFault::Unknown)
    }

    fn gid_written(&self, text: &[u8]) -> Result<Gid, NameFault> {
        if let Some(number) = read_decimal(text) {
            return self
                .gid(WrittenAccount::Number(number))
                .ok_or(NameFault::Unknown);
        }
        let mut room = ArrayVec::new();
        let written = WrittenAccount::read(text, &mut room).ok_or(NameFault::Malformed)?;
        self.gid(written).ok_or(NameFault::Unknown)
    }

    fn uid_in_front<'t>(&self, text: &'t [u8]) -> Option<(Uid, &'t [u8])> {
        let (number, rest) = read_decimal_until(b':', text)?;
        let uid = Uid::new(number)?;
        Some((uid, rest))
    }

    fn gid_in_front<'t>(&self, text: &'t [u8]) -> Option<(Gid, &'t [u8])> {
        let (number, rest) = read_decimal_until(b':', text)?;
        let gid = Gid::new(number)?;
        Some((gid, rest))
    }
}

/// The users of these rows, sorted by name. Of rows with the same name, the first counts.
fn users_by_name(alloc: Global, rows: &[UserRow<'_>]) -> Result<Vec<Account>, AllocError>
    ensures order { IfOk result (λ users. IsAscending (slice_cmp nat_cmp) (λ user. user.name)
        users.items) }
    ensures found { IfOk result (λ users. (name : List ℕ)
        → find (λ user. bytes_eq user.name name) users.items
        ≡ option_map account_of (find (λ row. bytes_eq row.name name) (map view_user rows.now))) }
{
    let firsts = firsts_by_name(alloc, rows)?;
    accounts_of(alloc, &firsts)
}

/// The groups of these rows, sorted by name. Of rows with the same name, the first counts.
fn groups_by_name(alloc: Global, rows: &[GroupRow<'_>]) -> Result<Vec<AccountGroup>, AllocError>
    ensures order { IfOk result (λ groups. IsAscending (slice_cmp nat_cmp) (λ group. group.name)
        groups.items) }
    ensures found { IfOk result (λ groups. (name : List ℕ)
        → find (λ group. bytes_eq group.name name) groups.items
        ≡ option_map group_of (find (λ row. bytes_eq row.name name) (map view_group rows.now))) }
{
    let firsts = firsts_by_name(alloc, rows)?;
    groups_of(alloc, &firsts)
}

/// The users of these rows, in the order of the rows.
fn accounts_of(alloc: Global, rows: &[UserRow<'_>]) -> Result<Vec<Account>, AllocError>
    ensures { IfOk result (λ users. users.items ≡ map (λ row. account_of (view_user row)) rows.now) }
{
    let mut users = Vec::with_capacity(alloc, rows.len())?;
    for row in rows {
        let name = Vec::from_slice(alloc, row.name)?;
        users.push(Account {
            name,
            uid: row.uid,
            gid: row.gid,
        })?;
    }
    Ok(users)
}

/// The groups of these rows, in the order of the rows.
fn groups_of(alloc: Global, rows: &[GroupRow<'_>]) -> Result<Vec<AccountGroup>, AllocError>
    ensures { IfOk result (λ groups. groups.items ≡ map (λ row. group_of (view_group row)) rows.now) }
{
    let mut groups = Vec::with_capacity(alloc, rows.len())?;
    for row in rows {
        let name = Vec::from_slice(alloc, row.name)?;
        groups.push(AccountGroup { name, gid: row.gid })?;
    }
    Ok(groups)
}
