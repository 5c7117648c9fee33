//! Printing answers.

ghost use Rattle.std.specs.Prelude.{◌≡◌, ◌++◌, OnOk, OnErr};
ghost use Rattle.acl_names.specs.Pushing.{Pushes};
ghost use Rattle.acl_tree.specs.Nodes.{view_of};
ghost use Rattle.acl_tree.specs.declared.reply.Reply.TheVariants.{Node as ReplyNode};
ghost use Rattle.acl_lang.specs.Printed.{answer_text};

use crate::printing::{push_reply, push_view};
use crate::room::{room_for, room_for_shown};
use crate::shown::Shown;
use acl_names::{Directory, push_decimal};
use acl_tree::{Node, Path, Reply};
use std::alloc::AllocError;

/// A reply, with the number of the line that it answers.
#[derive(Debug, Drop)]
pub struct Answer {
    /// The number of the request's line, from 1.
    pub line: u32,
    /// The tree's reply.
    pub reply: Reply,
}

/// Appends the answer: the number of its line, and the reply, on one line or, with lists, on
/// several. It reserves all room at once, so that `out` grows once at most. Fails only if memory
/// runs out; then `out` is as it was.
pub fn render(answer: &Answer, directory: &Directory, out: &mut Vec<u8>) -> Result<(), AllocError>
    ensures text { OnOk result (out.new.items
        ≡ out.old.items ++ answer_text directory.now answer.now) }
    ensures unchanged { OnErr result (out.new.items ≡ out.old.items) }
{
    let old_len = out.len();
    let printed = push_answer(answer, directory, out);
    if printed.is_err() {
        out.truncate(old_len);
    }
    printed
}

/// Appends the answer that shows a node at a path, as `render` does for the node's view, but
/// without making a view: it copies only the text. Fails only if memory runs out; then `out` is as
/// it was.
pub fn render_node(
    line: u32,
    path: &Path,
    node: &Node,
    directory: &Directory,
    out: &mut Vec<u8>,
) -> Result<(), AllocError>
    ensures text { OnOk result (out.new.items
        ≡ out.old.items ++ answer_text directory.now
        (record { line = line; reply = ReplyNode (view_of path.now node.now) })) }
    ensures unchanged { OnErr result (out.new.items ≡ out.old.items) }
{
    let old_len = out.len();
    let printed = push_shown_answer(line, &Shown::of_node(path, node), directory, out);
    if printed.is_err() {
        out.truncate(old_len);
    }
    printed
}

/// Appends the number of a line, and a node.
#[tactic(auto, using(acl_names::proofs::Prefixes::printing_steps))]
fn push_shown_answer(
    line: u32,
    shown: &Shown<'_>,
    directory: &Directory,
    out: &mut Vec<u8>,
) -> Result<(), AllocError>
    ensures { Pushes (answer_text directory.now
        (record { line = line; reply = ReplyNode shown.now })) result out.old out.new }
{
    out.reserve(room_for_shown(shown, directory))?;
    push_decimal(line, out)?;
    out.extend_from_slice(b" ")?;
    push_view(shown, directory, out)
}

#[tactic(auto, using(acl_names::proofs::Prefixes::printing_steps))]
fn push_answer(answer: &Answer, directory: &Directory, out: &mut Vec<u8>) -> Result<(), AllocError>
    ensures { Pushes (answer_text directory.now answer.now) result out.old out.new }
{
    out.reserve(room_for(&answer.reply, directory))?;
    push_decimal(answer.line, out)?;
    out.extend_from_slice(b" ")?;
    push_reply(&answer.reply, directory, out)
}
