//! The tree of the examples, commands on it, and lists that texts spell. A function answers none if
//! memory or a text is refused.
use crate::lists::{Lists, lists_of};
use acl_names::{Directory, Gid, Uid};
use acl_nfs4::{Acl4, Kind, read_letters};
use acl_posix::{Acl, Mode, read_perms};
use acl_tree::{
    Boxed, LineFault, Node, NodeAcl, Path, Reply, Request, Style, Tree, TreeFault, View,
};
use std::alloc::Global;
use tests_common::{acl, acl4, directory};

pub const ALICE: u32 = 1000;

pub const BOB: u32 = 1001;

pub const CAROL: u32 = 1002;

/// A directory, and one in it. Their paths have more than the 16 bytes that take no memory.
pub const DIR: &str = "/longer-than-16-b";

pub const CHILD: &str = "/longer-than-16-b/child";

/// The paths of all nodes that the tests create, but for those that fill a tree.
const PATHS: [&str; 4] = ["/", "/a", DIR, CHILD];

pub fn uid(number: u32) -> Option<Uid> {
    Uid::new(number)
}

pub fn gid(number: u32) -> Option<Gid> {
    Gid::new(number)
}

pub fn mode(bits: u16) -> Option<Mode> {
    Mode::from_bits(bits)
}

/// What a reply reports, but for lists.
#[derive(Clone, Copy, Debug, PartialEq, Eq)]
pub enum Outcome {
    Done,
    Shown,
    Granted,
    Denied,
    Translated,
    Refused(TreeFault),
    Fault(LineFault),
}

/// A command, with its names and lists as texts spell them:
/// `Create(Kind::File, "/a", ALICE, 0o640)` is the line `create file /a alice 640`,
/// and `Check("/a", BOB, "r")` the line `check /a bob r`.
#[derive(Clone, Copy)]
pub enum Command<'a> {
    Get(&'a str),
    SetAccess(&'a str, &'a str),
    SetDefault(&'a str, &'a str),
    SetNfs4(&'a str, &'a str),
    Chmod(&'a str, u16),
    Create(Kind, &'a str, u32, u16),
    Check(&'a str, u32, &'a str),
    Check4(&'a str, u32, &'a str),
    Translate(&'a str),
}

/// A step of an example: a command with what it reports, or what the tree has then.
#[derive(Clone, Copy)]
pub enum Step<'a> {
    Reports(Command<'a>, Outcome),
    /// So many nodes.
    Has(usize),
    /// A node with this access list, and no default list.
    HasAccess(&'a str, &'a str),
    /// A node with this NFSv4 list.
    HasAces(&'a str, &'a str),
}

/// Copies of a tree's nodes, each at its path.
#[derive(Drop)]
pub struct Nodes {
    views: Vec<View>,
}

/// The tree with the file /a of alice's, created with mode 666.
pub const A: &[Command<'static>] = &[Command::Create(Kind::File, "/a", ALICE, 0o666)];

/// The examples' directory and tree.
#[derive(Drop)]
pub struct World {
    alloc: Global,
    names: Directory,
    pub tree: Tree,
}

impl World {
    /// A root of root's with mode 755, under the umask 022.
    pub fn new(alloc: Global, style: Style) -> Option<World> {
        let names = directory(alloc)?;
        let tree = Tree::new(alloc, uid(0)?, gid(0)?, mode(0o755)?, style, mode(0o022)?).ok()?;
        Some(World { alloc, names, tree })
    }

    /// The same of the POSIX style, after these commands, each of which is done.
    pub fn after(alloc: Global, commands: &[Command<'_>]) -> Option<World> {
        let mut world = World::new(alloc, Style::Posix)?;
        if world.does(commands) {
            Some(world)
        } else {
            None
        }
    }

    fn does(&mut self, commands: &[Command<'_>]) -> bool {
        for command in commands {
            if self.command(*command) != Some(Outcome::Done) {
                return false;
            }
        }
        true
    }

    pub fn apply(&mut self, request: &Request) -> Option<Reply> {
        self.tree.apply(self.alloc, request, &self.names).ok()
    }

    pub fn outcome(&mut self, request: &Request) -> Option<Outcome> {
        let reply = self.apply(request)?;
        Some(outcome_of(&reply))
    }

    /// What the command reports.
    pub fn command(&mut self, command: Command<'_>) -> Option<Outcome> {
        let request = request(self.alloc, command)?;
        self.outcome(&request)
    }

    /// Whether the step goes as it says.
    pub fn goes(&mut self, step: Step<'_>) -> Option<bool> {
        match step {
            Step::Reports(command, reported) => Some(self.command(command)? == reported),
            Step::Has(nodes) => Some(self.tree.len() == nodes),
            Step::HasAccess(at, text) => self.has(at, Lists::Posix(text, None)),
            Step::HasAces(at, text) => self.has(at, Lists::Nfs4(text)),
        }
    }

    /// The place of the first step that doesn't go as it says.
    fn first_wrong(&mut self, steps: &[Step<'_>]) -> Option<usize> {
        for (place, step) in steps.iter().enumerate() {
            if self.goes(*step) != Some(true) {
                return Some(place);
            }
        }
        None
    }

    /// Copies of the tree's nodes.
    pub fn nodes(&self) -> Option<Nodes> {
        let mut views = Vec::new(self.alloc);
        for at in PATHS {
            let path = path(self.alloc, at)?;
            if let Some(node) = self.tree.node(&path) {
                views.push(node.view(self.alloc, &path).ok()?).ok()?;
            }
        }
        Some(Nodes { views })
    }

    /// Whether the tree has these nodes, each as it was copied, and no others. It takes no memory.
    pub fn has_nodes(&self, nodes: &Nodes) -> bool {
        self.tree.len() == nodes.views.len() && nodes.views.iter().all(|view| self.has_copied(view))
    }

    fn has_copied(&self, view: &View) -> bool {
        match self.tree.node(&view.path) {
            Some(node) => is_copied(node, view),
            None => false,
        }
    }

    /// Whether the node at the path has these lists, and no others.
    fn has(&self, at: &str, lists: Lists<'_>) -> Option<bool> {
        let lists = lists_of(self.alloc, lists)?;
        let path = path(self.alloc, at)?;
        match self.tree.node(&path) {
            Some(node) => Some(has_lists(&node.acl, &lists)),
            None => Some(false),
        }
    }
}

fn path(alloc: Global, at: &str) -> Option<Path> {
    Path::read(alloc, at.as_bytes()).ok()
}

/// The POSIX list that the text spells, in a box.
fn boxed(alloc: Global, text: &str) -> Option<Boxed<Acl>> {
    Boxed::new(alloc, acl(alloc, text)?).ok()
}

/// The NFSv4 list that the text spells, in a box.
fn boxed4(alloc: Global, text: &str) -> Option<Boxed<Acl4>> {
    Boxed::new(alloc, acl4(alloc, text)?).ok()
}

/// The request of a command.
fn request(alloc: Global, command: Command<'_>) -> Option<Request> {
    match command {
        Command::Get(at) => Some(Request::Get(path(alloc, at)?)),
        Command::SetAccess(at, text) => {
            let acl = boxed(alloc, text)?;
            Some(Request::SetAccess(path(alloc, at)?, acl))
        }
        Command::SetDefault(at, text) => {
            let acl = boxed(alloc, text)?;
            Some(Request::SetDefault(path(alloc, at)?, Some(acl)))
        }
        Command::SetNfs4(at, text) => {
            let acl = boxed4(alloc, text)?;
            Some(Request::SetNfs4(path(alloc, at)?, acl))
        }
        Command::Chmod(at, bits) => {
            let mode = mode(bits)?;
            Some(Request::Chmod(path(alloc, at)?, mode))
        }
        Command::Create(kind, at, owner, bits) => {
            let (owner, mode) = (uid(owner)?, mode(bits)?);
            Some(Request::Create(kind, path(alloc, at)?, owner, mode))
        }
        Command::Check(at, user, perms) => {
            let (user, perms) = (uid(user)?, read_perms(perms.as_bytes())?);
            Some(Request::Check(path(alloc, at)?, user, perms))
        }
        Command::Check4(at, user, letters) => {
            let (user, mask) = (uid(user)?, read_letters(letters.as_bytes())?);
            Some(Request::Check4(path(alloc, at)?, user, mask))
        }
        Command::Translate(at) => Some(Request::Translate(path(alloc, at)?)),
    }
}

/// The place of the first step that doesn't go as it says, one after the other on this tree; 0 if
/// there is no tree.
pub fn wrong_step(world: Option<World>, steps: &[Step<'_>]) -> Option<usize> {
    match world {
        Some(mut world) => world.first_wrong(steps),
        None => Some(0),
    }
}

/// Whether each step goes as it says, and together they leave each node as it was and add none.
pub fn leave_all(world: Option<World>, steps: &[Step<'_>]) -> Option<bool> {
    let mut world = world?;
    let before = world.nodes()?;
    Some(world.first_wrong(steps).is_none() && world.has_nodes(&before))
}

fn outcome_of(reply: &Reply) -> Outcome {
    match reply {
        Reply::Done => Outcome::Done,
        Reply::Node(_) => Outcome::Shown,
        Reply::Granted => Outcome::Granted,
        Reply::Denied => Outcome::Denied,
        Reply::Translated(_) => Outcome::Translated,
        Reply::TranslatedBoth { .. } => Outcome::Translated,
        Reply::Refused(fault) => Outcome::Refused(*fault),
        Reply::Fault(fault) => Outcome::Fault(*fault),
    }
}

fn is_copied(node: &Node, view: &View) -> bool {
    node.kind == view.kind
        && node.owner == view.owner
        && node.group == view.group
        && has_lists(&node.acl, &view.acl)
}

fn has_lists(own: &NodeAcl, lists: &NodeAcl) -> bool {
    match lists {
        NodeAcl::Posix { access, default } => is_posix(own, access, default),
        NodeAcl::Nfs4 { acl } => is_nfs4(own, acl),
    }
}

fn is_posix(own: &NodeAcl, list: &Acl, list_below: &Option<Acl>) -> bool {
    match own {
        NodeAcl::Posix { access, default } => {
            access.entries() == list.entries() && is_default(default, list_below)
        }
        NodeAcl::Nfs4 { .. } => false,
    }
}

fn is_default(own: &Option<Acl>, list: &Option<Acl>) -> bool {
    match (own, list) {
        (Some(own), Some(list)) => own.entries() == list.entries(),
        (None, None) => true,
        _ => false,
    }
}

fn is_nfs4(own: &NodeAcl, list: &Acl4) -> bool {
    match own {
        NodeAcl::Posix { .. } => false,
        NodeAcl::Nfs4 { acl } => acl.aces() == list.aces(),
    }
}
