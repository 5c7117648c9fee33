//! Reading setups.
ghost use Rattle.std.specs.Prelude.{◌≡◌, ◌↔◌, IfErr, IfOk, IfSome, IsNone, Ok};
ghost use Rattle.toml.specs.Errors.{IsMemory, IsWithin, span_start};
ghost use Rattle.toml.specs.View.{table_view};
ghost use Rattle.acl_names.specs.Directory.{IsRefusedFor};
ghost use Rattle.acl_setup.specs.Opened.{ExplainsSetup, IsOpened, IsRefusedSetup, IsSpotAt, Opens};
ghost use Rattle.acl_setup.specs.Opened.{opened_by};
ghost use Rattle.acl_setup.specs.Setup.{setup_in};
ghost use Rattle.acl_setup.specs.Shown.{setup_shown};

use crate::fault::SetupError;
use crate::fields::{Setup, read_table};
use crate::key::Key;
use crate::parts::key_of_parts;
use crate::spot::{Spot, spot_after};
use acl_names::{Directory, SetupFault};
use acl_tree::Tree;
use std::alloc::Global;
use toml::Table;
use toml::de::Error;

/// The error for users and groups of the setup with this fault.
#[tactic(auto, unfolding(crate::specs::Opened::opened_by))]
fn parts_error(setup: &Setup, fault: SetupFault) -> SetupError
    requires { IsRefusedFor (setup_shown setup.now).known fault }
    ensures { ExplainsSetup (opened_by (setup_shown setup.now)) result }
{
    let users = setup.users.as_slice();
    let groups = setup.groups.as_slice();
    match key_of_parts(setup.domain.as_str(), users, groups, fault) {
        Some(key) => SetupError::Parts(fault, key),
        None => SetupError::Memory,
    }
}

/// The directory of the users and groups, and a tree of the root, of the setup in the table. If the
/// directory is refused, which drops users and groups, the table is read again for the key at
/// fault.
#[tactic(auto, unfolding(crate::specs::Opened::opened_by))]
fn open(alloc: Global, table: &Table, setup: Setup) -> Result<(Directory, Tree), SetupError>
    requires { setup_in (table_view table.now) ≡ Ok (setup_shown setup) }
    ensures opened { IfOk result (λ opened. IsOpened (opened_by (setup_shown setup)) opened.0
        opened.1) }
    ensures refused { IfErr result (ExplainsSetup (opened_by (setup_shown setup))) }
{
    let Setup {
        umask,
        root,
        domain,
        users,
        groups,
    } = setup;
    let directory = match Directory::from_parts(alloc, domain, users, groups) {
        Ok(directory) => directory,
        Err(fault) => return Err(parts_error(&read_table(alloc, table)?, fault)),
    };
    let owner = directory
        .uid_of(root.owner.as_str())
        .ok_or(SetupError::BadField(Key::RootOwner))?;
    let group = directory
        .gid_of(root.group.as_str())
        .ok_or(SetupError::BadField(Key::RootGroup))?;
    let tree = Tree::new(alloc, owner, group, root.mode, root.style, umask)?;
    Ok((directory, tree))
}

/// Where the fault begins for which the bytes aren't a document, as the toml crate reports it;
/// `None` if memory ran out.
fn spot_of(bytes: &[u8], error: &Error) -> Option<Spot>
    requires { IsWithin bytes.now error.now }
    ensures spot { IfSome result (IsSpotAt bytes.now (span_start error.now)) }
    ensures memory { IsNone result ↔ IsMemory error.now }
{
    match error.span() {
        Some(range) => Some(spot_after(&bytes[..range.start])),
        None => None,
    }
}

/// Opens a setup: its users and groups as a directory, and a tree with the root alone and the
/// setup's umask.
///
/// The bytes are a TOML document with the keys `domain` and `umask`, a table `root` with `owner`,
/// `group`, `mode` and `style`, and any number of tables `user`, with `name`, `uid` and `groups`,
/// and `group`, with `name` and `gid`. Other keys are ignored. A mode has three octal digits, and a
/// style is `posix` or `nfs4`.
///
/// Fails with `NotToml` if the bytes aren't such a document; else with `BadField` for the first
/// key, in this order, that is missing or has a value of another type or out of its range; else
/// with `Parts` for the first fault of the users and groups, as `Directory::from_parts` returns it,
/// and the first key with it; else with `BadField` if the root's owner is no user or its group no
/// group. Fails with `Memory` if memory runs out.
pub fn read_setup(alloc: Global, bytes: &[u8]) -> Result<(Directory, Tree), SetupError>
    ensures opened { IfOk result (λ opened. Opens bytes.now opened.0 opened.1) }
    ensures refused { IfErr result (IsRefusedSetup bytes.now) }
{
    match toml::table_from_slice(alloc, bytes) {
        Ok(table) => open(alloc, &table, read_table(alloc, &table)?),
        Err(error) => match spot_of(bytes, &error) {
            Some(spot) => Err(SetupError::NotToml(spot)),
            None => Err(SetupError::Memory),
        },
    }
}
