//! The keys of a setup.

/// A key of a setup. A table in an array has its index, from 0, and so has a value in an array of
/// such a table.
#[derive(Clone, Copy, Debug, PartialEq, Eq)]
pub enum Key {
    Domain,
    Umask,
    Root,
    RootOwner,
    RootGroup,
    RootMode,
    RootStyle,
    /// The array of the tables `user`.
    Users,
    User(usize),
    UserName(usize),
    UserUid(usize),
    UserGroups(usize),
    /// One of the user's groups.
    UserGroup(usize, usize),
    /// The array of the tables `group`.
    Groups,
    Group(usize),
    GroupName(usize),
    GroupGid(usize),
}
