//! The options for users and groups, and for the users to evaluate.

use acl_cli::{Given, Word};

/// The option `--accounts`: users and groups.
pub const ACCOUNTS: Word<'static> = Word {
    given: Given::Option,
    name: "accounts",
    value: "FILE",
    help: "Users and groups, as `getent passwd; getent group` prints them; the default is \
         /etc/passwd and /etc/group",
};

/// The option `--domain`: the domain of the users and groups.
pub const DOMAIN: Word<'static> = Word {
    given: Given::Option,
    name: "domain",
    value: "DOMAIN",
    help: "The domain of the users and groups: NAME@DOMAIN means NAME",
};

/// The option `--user`, any number of times: the users to evaluate.
pub const USERS: Word<'static> = Word {
    given: Given::RepeatedOption,
    name: "user",
    value: "NAME",
    help: "A user to evaluate, by name or uid; can be repeated. The default is all but uid 0",
};
