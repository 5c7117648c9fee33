//! Reading the table of a setup.
ghost use Rattle.toml.specs.View.{table_view};
ghost use Rattle.acl_setup.specs.Readings.{IsReadingOf};
ghost use Rattle.acl_setup.specs.Setup.{root_in, setup_in};
ghost use Rattle.acl_setup.specs.Shown.{root_shown, setup_shown};

use crate::fault::SetupError;
use crate::key::Key;
use crate::value::{
    FromValue, gid_at, items_at, mode_at, style_at, table_at, text_at, texts_at, uid_at,
};
use acl_bridge::Style;
use acl_names::{Group, User};
use acl_posix::Mode;
use std::alloc::Global;
use toml::{Table, Value};

/// The root directory of a setup.
#[derive(Drop)]
pub(crate) struct Root {
    pub(crate) owner: String,
    pub(crate) group: String,
    pub(crate) mode: Mode,
    pub(crate) style: Style,
}

/// The content of a setup, whose users and groups may still be refused as a directory.
#[derive(Drop)]
pub(crate) struct Setup {
    pub(crate) umask: Mode,
    pub(crate) root: Root,
    pub(crate) domain: String,
    pub(crate) users: Vec<User>,
    pub(crate) groups: Vec<Group>,
}

impl FromValue for User {
    ghost use Rattle.acl_setup.specs.Setup.{user_in};

    ghost reading = { user_in };

    #[tactic(auto, unfolding(crate::specs::Setup::user_in))]
    fn from_value(alloc: Global, index: usize, value: &Value) -> Result<User, SetupError> {
        let table = value
            .as_table()
            .ok_or(SetupError::BadField(Key::User(index)))?;
        let name = text_at(table, "name").ok_or(SetupError::BadField(Key::UserName(index)))?;
        let uid = uid_at(table, "uid").ok_or(SetupError::BadField(Key::UserUid(index)))?;
        let groups = texts_at(alloc, table, "groups", Key::UserGroups(index))?;
        Ok(User {
            name: String::from_str(alloc, name)?,
            uid,
            groups,
        })
    }
}

impl FromValue for Group {
    ghost use Rattle.acl_setup.specs.Setup.{group_in};

    ghost reading = { group_in };

    #[tactic(auto, unfolding(crate::specs::Setup::group_in))]
    fn from_value(alloc: Global, index: usize, value: &Value) -> Result<Group, SetupError> {
        let table = value
            .as_table()
            .ok_or(SetupError::BadField(Key::Group(index)))?;
        let name = text_at(table, "name").ok_or(SetupError::BadField(Key::GroupName(index)))?;
        let gid = gid_at(table, "gid").ok_or(SetupError::BadField(Key::GroupGid(index)))?;
        Ok(Group {
            name: String::from_str(alloc, name)?,
            gid,
        })
    }
}

#[tactic(auto, unfolding(crate::specs::Setup::root_in))]
fn read_root(alloc: Global, table: &Table) -> Result<Root, SetupError>
    ensures { IsReadingOf root_shown (root_in (table_view table.now)) result }
{
    let owner = text_at(table, "owner").ok_or(SetupError::BadField(Key::RootOwner))?;
    let group = text_at(table, "group").ok_or(SetupError::BadField(Key::RootGroup))?;
    let mode = mode_at(table, "mode").ok_or(SetupError::BadField(Key::RootMode))?;
    let style = style_at(table, "style").ok_or(SetupError::BadField(Key::RootStyle))?;
    Ok(Root {
        owner: String::from_str(alloc, owner)?,
        group: String::from_str(alloc, group)?,
        mode,
        style,
    })
}

/// Reads a setup from a table. Fails with `BadField` for the first key that is missing, or whose
/// value has another type or is out of its range; and with `Memory` if memory runs out.
#[tactic(auto, unfolding(crate::specs::Setup::setup_in))]
pub(crate) fn read_table(alloc: Global, table: &Table) -> Result<Setup, SetupError>
    ensures { IsReadingOf setup_shown (setup_in (table_view table.now)) result }
{
    let domain = text_at(table, "domain").ok_or(SetupError::BadField(Key::Domain))?;
    let umask = mode_at(table, "umask").ok_or(SetupError::BadField(Key::Umask))?;
    let root = table_at(table, "root").ok_or(SetupError::BadField(Key::Root))?;
    let root = read_root(alloc, root)?;
    let users = items_at(alloc, table, "user", Key::Users)?;
    let groups = items_at(alloc, table, "group", Key::Groups)?;
    Ok(Setup {
        umask,
        root,
        domain: String::from_str(alloc, domain)?,
        users,
        groups,
    })
}
