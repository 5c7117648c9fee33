//! Lists as texts spell them, and what a node has.
use acl_tree::NodeAcl;
use std::alloc::Global;
use tests_common::{acl, acl4};

/// Lists as texts spell them.
#[derive(Clone, Copy)]
pub enum Lists<'a> {
    /// An access list, and a default list where there is one.
    Posix(&'a str, Option<&'a str>),
    Nfs4(&'a str),
}

/// The lists that the texts spell; none where memory or a text is refused.
pub fn lists_of(alloc: Global, lists: Lists<'_>) -> Option<NodeAcl> {
    match lists {
        Lists::Posix(access, None) => {
            let access = acl(alloc, access)?;
            Some(NodeAcl::Posix {
                access,
                default: None,
            })
        }
        Lists::Posix(access, Some(default)) => {
            let access = acl(alloc, access)?;
            let default = Some(acl(alloc, default)?);
            Some(NodeAcl::Posix { access, default })
        }
        Lists::Nfs4(list) => {
            let acl = acl4(alloc, list)?;
            Some(NodeAcl::Nfs4 { acl })
        }
    }
}
