//! A tree of files and directories with access control lists of either style, and its commands.
#![tactic(auto)]

mod boxed;
mod faults;
mod laws;
mod limits;
mod node;
mod node_acl;
mod path;
mod refusal;
mod reply;
mod request;
mod tree;

pub use acl_bridge::Style;
pub use boxed::Boxed;
pub use faults::{LineFault, TreeFault};
pub use laws::{command_laws, tree_laws};
pub use limits::{
    INLINE_PATH_LEN, MAX_COMPONENT_LEN, MAX_NODES, MAX_PATH_LEN, bytes_in_numbers,
    limits_in_numbers,
};
pub use node::Node;
pub use node_acl::NodeAcl;
pub use path::{Path, PathFault};
pub use reply::{Reply, View};
pub use request::Request;
pub use tree::Tree;
