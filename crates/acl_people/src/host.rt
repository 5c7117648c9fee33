//! The users and groups of a host.
ghost use Rattle.std.specs.Prelude.{◌≡◌, IfErr, IfOk, option_map};
ghost use Rattle.clap.specs.Words.{found_of, rows_of};
ghost use Rattle.acl_people.specs.Elsewhere.{IsOtherHost, IsOtherHostFailure};
ghost use Rattle.acl_people.specs.Host.{AreAccountsBy, IsHost, before_domain, before_end};
ghost use Rattle.acl_people.specs.Host.{by_itself, lacks_group, lacks_user};
ghost use Rattle.acl_people.specs.HostFailures.{IsAccountsFailureBy, IsHostFailure};

mod accounts;

pub(crate) use accounts::OWN_FILES;
use accounts::{read_accounts, read_own_accounts};
use acl_accounts::Accounts;
use acl_cli::fields::text_field;
use acl_cli::{Failure, OpenFiles};
use acl_names::{Gid, NameFault, ResolveNames, Uid};
use clap::ArgMatches;
use std::alloc::{AllocError, Global};
use std::marker::Model;

/// The users and groups of a host, from accounts, and their domain, if there is one: a text may
/// write `NAME@DOMAIN` for NAME.
#[derive(Debug, Drop)]
pub struct Host {
    accounts: Accounts,
    domain: Option<Vec<u8>>,
}

impl Model for Host {
    ghost use Rattle.std.specs.Prelude.{option_map};
    ghost use Rattle.acl_people.specs.Host.{Host as HostValue};

    ghost Value = { HostValue };

    ghost view = { λ host. record {
      accounts = host.accounts;
      domain = option_map (λ domain. domain.items) host.domain;
    } };
}

/// The text before `end`, if it ends so.
fn before_end<'t>(end: &[u8], text: &'t [u8]) -> Option<&'t [u8]>
    ensures { option_map (λ front. front.now) result ≡ before_end end.now text.now }
{
    text.strip_suffix(end)
}

/// The text before `@` and the domain, if it ends so.
fn before_domain<'t>(domain: &[u8], text: &'t [u8]) -> Option<&'t [u8]>
    ensures { option_map (λ name. name.now) result ≡ before_domain domain.now text.now }
{
    let front = before_end(domain, text)?;
    before_end(b"@", front)
}

impl Host {
    /// The users and groups.
    pub(crate) fn accounts(&self) -> &Accounts
        ensures { result.now ≡ self.now.accounts }
    {
        &self.accounts
    }

    /// The text without `@` and the domain, if it ends so.
    pub(crate) fn by_itself<'t>(&self, text: &'t [u8]) -> &'t [u8]
        ensures { result.now ≡ by_itself self.now.domain text.now }
    {
        match &self.domain {
            Some(domain) => before_domain(domain.as_slice(), text).unwrap_or(text),
            None => text,
        }
    }

    /// Whether no user has the uid.
    pub fn lacks_user(&self, uid: Uid) -> bool
        ensures { result ≡ lacks_user self.now uid }
    {
        self.accounts.user_name(uid).is_none()
    }

    /// Whether no group has the gid; that it is a user's own doesn't count.
    pub fn lacks_group(&self, gid: Gid) -> bool
        ensures { result ≡ lacks_group self.now gid }
    {
        self.accounts.group_name(gid).is_none()
    }
}

impl ResolveNames for Host {
    ghost use Rattle.acl_people.specs.Host.{names_of_host};

    ghost names = { names_of_host };

    fn uid_written(&self, text: &[u8]) -> Result<Uid, NameFault> {
        self.accounts.uid_written(self.by_itself(text))
    }

    fn gid_written(&self, text: &[u8]) -> Result<Gid, NameFault> {
        self.accounts.gid_written(self.by_itself(text))
    }

    fn uid_in_front<'t>(&self, text: &'t [u8]) -> Option<(Uid, &'t [u8])> {
        match &self.domain {
            Some(_) => None,
            None => self.accounts.uid_in_front(text),
        }
    }

    fn gid_in_front<'t>(&self, text: &'t [u8]) -> Option<(Gid, &'t [u8])> {
        match &self.domain {
            Some(_) => None,
            None => self.accounts.gid_in_front(text),
        }
    }
}

/// A copy of the text, if there is one.
fn copy_of(alloc: Global, text: Option<&str>) -> Result<Option<Vec<u8>>, AllocError>
    ensures { IfOk result (λ copy. option_map (λ bytes. bytes.items) copy
        ≡ option_map (λ text. text.now) text.entry) }
{
    match text {
        Some(text) => Ok(Some(Vec::from_slice(alloc, text.as_bytes())?)),
        None => Ok(None),
    }
}

/// The accounts of the file of this name, or of this host.
fn read_any_accounts<'a, F: OpenFiles>(
    alloc: Global,
    files: &F,
    name: Option<&'a str>,
) -> Result<Accounts, Failure<'a>>
    ensures opened { IfOk result (AreAccountsBy (F.bytes_of files.now)
        (option_map (λ text. text.now) name.entry)) }
    ensures refused { IfErr result (IsAccountsFailureBy (F.bytes_of files.now)
        (option_map (λ text. text.now) name.entry)) }
{
    match name {
        Some(name) => read_accounts(alloc, files, name),
        None => read_own_accounts(alloc, files),
    }
}

/// The users and groups that the words name: the accounts of `--accounts`, or this host's own, and
/// the domain of `--domain`. Fails if a file can't be read or is malformed, or memory runs out.
pub fn read_host<'a, F: OpenFiles>(
    alloc: Global,
    files: &F,
    matches: &ArgMatches<'a>,
) -> Result<Host, Failure<'a>>
    ensures opened { IfOk result (IsHost (F.bytes_of files.now) (rows_of (found_of matches.now))) }
    ensures refused { IfErr result
        (IsHostFailure (F.bytes_of files.now) (rows_of (found_of matches.now))) }
{
    let domain = copy_of(alloc, text_field(matches, "domain"))?;
    let accounts = read_any_accounts(alloc, files, text_field(matches, "accounts"))?;
    Ok(Host { accounts, domain })
}

/// The users and groups of the accounts file `name`, and the domain of `--domain`. Fails if the
/// file can't be read or is malformed, or memory runs out.
pub fn read_other_host<'a, F: OpenFiles>(
    alloc: Global,
    files: &F,
    name: &'a str,
    matches: &ArgMatches<'a>,
) -> Result<Host, Failure<'a>>
    ensures opened { IfOk result (IsOtherHost (F.bytes_of files.now) name.entry.now
        (rows_of (found_of matches.now))) }
    ensures refused { IfErr result
        (IsOtherHostFailure (F.bytes_of files.now) name.entry.now) }
{
    let accounts = read_any_accounts(alloc, files, Some(name))?;
    let same = text_field(matches, "domain");
    let domain = copy_of(alloc, same)?;
    Ok(Host { accounts, domain })
}
