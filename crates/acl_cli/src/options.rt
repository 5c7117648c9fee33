//! Options that several commands have.

use crate::word::{Given, Word};

/// The option `--setup`: the setup's file.
pub const SETUP: Word<'static> = Word {
    given: Given::RequiredOption,
    name: "setup",
    value: "FILE",
    help: "A TOML file: the domain, the umask, the root directory, users and groups",
};

/// The option `--owner`: the file's owner.
pub const OWNER: Word<'static> = Word {
    given: Given::RequiredOption,
    name: "owner",
    value: "N",
    help: "The uid of the file's owner, in decimal",
};

/// The option `--group`: the file's group.
pub const GROUP: Word<'static> = Word {
    given: Given::RequiredOption,
    name: "group",
    value: "N",
    help: "The gid of the file's group, in decimal",
};

/// The option `--uid`: the user who requests access.
pub const UID: Word<'static> = Word {
    given: Given::RequiredOption,
    name: "uid",
    value: "N",
    help: "The uid of the user who requests access",
};

/// The option `--gids`: the groups of that user.
pub const GIDS: Word<'static> = Word {
    given: Given::Option,
    name: "gids",
    value: "N,N..",
    help: "The gids of that user's groups, at most 32, with commas between them",
};

/// The help of `--perms`.
const PERMS_HELP: &str =
    "The permissions requested: 1 to 3 of r, w, x and -. If the first is -, write --perms=-w-";

/// The option `--perms`: the permissions requested.
pub const PERMS: Word<'static> = Word {
    given: Given::RequiredOption,
    name: "perms",
    value: "P",
    help: PERMS_HELP,
};

/// The option `--perms`, which may be left out.
pub const OPTIONAL_PERMS: Word<'static> = Word {
    given: Given::Option,
    name: "perms",
    value: "P",
    help: PERMS_HELP,
};
