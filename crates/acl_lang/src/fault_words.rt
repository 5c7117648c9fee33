//! The words by which answers report faults.

ghost use Rattle.std.specs.Prelude.{◌≡◌};
ghost use Rattle.acl_lang.specs.Printed.{line_fault_word, tree_fault_word};

use acl_tree::{LineFault, TreeFault};

pub(crate) fn tree_fault_word(fault: TreeFault) -> &'static [u8]
    ensures { result.now ≡ tree_fault_word fault }
{
    match fault {
        TreeFault::NoSuchPath => b"no-such-path",
        TreeFault::Exists => b"exists",
        TreeFault::NotADirectory => b"not-a-directory",
        TreeFault::WrongStyle => b"wrong-style",
        TreeFault::DefaultOnFile => b"default-on-file",
        TreeFault::InheritOnFile => b"inherit-on-file",
        TreeFault::Full => b"full",
        TreeFault::TooMany => b"too-many",
    }
}

/// The word by which an answer reports a line's fault.
pub fn line_fault_word(fault: LineFault) -> &'static [u8]
    ensures { result.now ≡ line_fault_word fault }
{
    match fault {
        LineFault::Syntax => b"syntax",
        LineFault::BadPath => b"bad-path",
        LineFault::BadMode => b"bad-mode",
        LineFault::BadPerms => b"bad-perms",
        LineFault::UnknownName => b"unknown-name",
        LineFault::BadAcl => b"bad-acl",
        LineFault::InvalidAcl => b"invalid-acl",
        LineFault::TooMany => b"too-many",
        LineFault::InheritOnly => b"inherit-only",
        LineFault::LineTooLong => b"line-too-long",
    }
}
