//! The words that commands of listings share.

use acl_cli::{Given, Word};

/// The word LISTING: the listing to evaluate.
pub const LISTING: Word<'static> = Word {
    given: Given::RequiredWord,
    name: "listing",
    value: "LISTING",
    help: "A file with what getfacl -R printed, or - for standard input",
};

/// The word `--draft`: POSIX lists are evaluated by draft 17 alone.
pub const DRAFT: Word<'static> = Word {
    given: Given::Flag,
    name: "draft",
    value: "",
    help: "Evaluates POSIX lists by draft 17 alone, without Linux' rule of an empty mask",
};

/// The word BEFORE: the first of two listings.
pub const BEFORE: Word<'static> = Word {
    given: Given::RequiredWord,
    name: "listing",
    value: "BEFORE",
    help: "A file with what getfacl -R printed before, or - for standard input",
};

/// The word AFTER: the second of two listings.
pub const AFTER: Word<'static> = Word {
    given: Given::RequiredWord,
    name: "after",
    value: "AFTER",
    help: "A file with what it printed after, or - for standard input",
};
