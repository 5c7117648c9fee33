//! One session on one thread.
ghost use Rattle.std.specs.Prelude.{◌≡◌, ◌<◌, ◌≤◌, ◌++◌, [], length, IfOk, IsErrOf, OnOk};
ghost use Rattle.std.specs.Bool.{MatchBool};
ghost use Rattle.std.specs.Io.KnownBytes.{Appends, Keeps};
ghost use Rattle.acl_lang.specs.Texts.{requests_of};
ghost use Rattle.acl_cli.specs.Output.{AppendsFront};
ghost use Rattle.acl_lang.specs.Printed.{answer_text, answers_text};
ghost use Rattle.acl_service.specs.Runs.{answer_to, answers_of, session_text, tree_after};
ghost use Rattle.acl_service.specs.Runs.{tree_after_one};

use acl_cli::write_text;
use acl_lang::{Answer, MAX_TEXT_LEN, Numbered, Requests, render, render_node};
use acl_names::Directory;
use acl_tree::{Request, Tree};
use std::alloc::{AllocError, Global};
use std::io::Write;

/// Why a session failed.
#[derive(Clone, Copy, Debug, PartialEq, Eq)]
pub enum OneFault {
    /// Memory ran out. Nothing was written.
    Memory,
    /// The answers couldn't be written. A prefix of them was written.
    Write,
}

/// Applies the requests of the text's lines one by one, and prints each answer before the next line
/// is read. Answers are seldom twice as long as their text: with so much room from the start they
/// are seldom copied into more, and a machine lends memory only to what is written of it.
fn answer_lines(
    alloc: Global,
    directory: &Directory,
    tree: &mut Tree,
    text: &[u8],
    printed: &mut Vec<u8>,
) -> Result<(), AllocError>
    requires { length text.now ≤ MAX_TEXT_LEN }
    ensures text { OnOk result (printed.new.items
        ≡ printed.old.items ++ session_text directory.now tree.old text.now) }
    ensures tree { OnOk result (tree.new ≡ tree_after directory.now tree.old
        (requests_of directory.now text.now)) }
{
    printed.reserve(text.len().saturating_mul(2))?;
    let mut requests = Requests::new(text, directory);
    while answer_next(alloc, directory, tree, &mut requests, printed)? {}
    Ok(())
}

/// Applies the next request, and prints its answer. Returns whether there was one.
fn answer_next(
    alloc: Global,
    directory: &Directory,
    tree: &mut Tree,
    requests: &mut Requests<'_>,
    printed: &mut Vec<u8>,
) -> Result<bool, AllocError>
    // What is printed and what is still to come are the same text together.
    ensures text { OnOk result (printed.new.items
        ++ answers_text directory.now (answers_of directory.now tree.new requests.new)
        ≡ printed.old.items
        ++ answers_text directory.now (answers_of directory.now tree.old requests.old)) }
    ensures tree { OnOk result (tree_after directory.now tree.new requests.new
        ≡ tree_after directory.now tree.old requests.old) }
    ensures rest { IfOk result (λ some. MatchBool some
        (length requests.new < length requests.old) (requests.new ≡ [])) }
{
    let Some(numbered) = requests.next(alloc)? else {
        return Ok(false);
    };
    // The request is dropped at one place, whether it is answered or not.
    answer_one(alloc, directory, tree, &numbered, printed).and(Ok(true))
}

/// Applies a request, and prints its answer. A node that is requested is printed without a copy.
fn answer_one(
    alloc: Global,
    directory: &Directory,
    tree: &mut Tree,
    numbered: &Numbered,
    printed: &mut Vec<u8>,
) -> Result<(), AllocError>
    ensures text { OnOk result (printed.new.items
        ≡ printed.old.items ++ answer_text directory.now
        (answer_to directory.now tree.old numbered.now)) }
    ensures tree { OnOk result (tree.new ≡ tree_after_one directory.now tree.old numbered.now) }
{
    if let Request::Get(path) = &numbered.request {
        if let Some(node) = tree.node(path) {
            return render_node(numbered.line, path, node, directory, printed);
        }
    }
    let reply = tree.apply(alloc, &numbered.request, directory)?;
    let answer = Answer {
        line: numbered.line,
        reply,
    };
    render(&answer, directory, printed)
}

/// Applies the commands of a text to the tree, line by line, and drops their answers. The text must
/// have at most 1,048,576 bytes. Fails only if memory runs out; then the commands before have
/// changed the tree.
pub fn apply_text(
    alloc: Global,
    directory: &Directory,
    tree: &mut Tree,
    text: &[u8],
) -> Result<(), AllocError>
    requires { length text.now ≤ MAX_TEXT_LEN }
    ensures { OnOk result (tree.new ≡ tree_after directory.now tree.old
        (requests_of directory.now text.now)) }
{
    let mut requests = Requests::new(text, directory);
    while apply_next(alloc, directory, tree, &mut requests)? {}
    Ok(())
}

/// Applies the next request, and drops its answer. Returns whether there was one.
fn apply_next(
    alloc: Global,
    directory: &Directory,
    tree: &mut Tree,
    requests: &mut Requests<'_>,
) -> Result<bool, AllocError>
    ensures tree { OnOk result (tree_after directory.now tree.new requests.new
        ≡ tree_after directory.now tree.old requests.old) }
    ensures rest { IfOk result (λ some. MatchBool some
        (length requests.new < length requests.old) (requests.new ≡ [])) }
{
    let Some(numbered) = requests.next(alloc)? else {
        return Ok(false);
    };
    tree.apply(alloc, &numbered.request, directory)
        .and(Ok(true))
}

/// Applies the commands of a text to the tree, line by line, and returns the tree that they leave.
/// Their answers go to `out`, written at once after all of them are made. The text must have at
/// most 1,048,576 bytes. A fault drops the tree: after `Memory` nothing was written, and after
/// `Write` a prefix of the answers.
pub fn run_one<W: Write>(
    alloc: Global,
    directory: &Directory,
    tree: Tree,
    text: &[u8],
    out: &mut W,
) -> Result<Tree, OneFault>
    requires { length text.now ≤ MAX_TEXT_LEN }
    ensures tree { IfOk result (λ after. after
        ≡ tree_after directory.now tree (requests_of directory.now text.now)) }
    ensures written { OnOk result (Appends (W.contents out.old) (W.contents out.new)
        (session_text directory.now tree text.now)) }
    ensures memory { IsErrOf result OneFault.Memory
        → Keeps (W.contents out.old) (W.contents out.new) }
    ensures cut { IsErrOf result OneFault.Write
        → AppendsFront (W.contents out.old) (W.contents out.new)
        (session_text directory.now tree text.now) }
{
    let mut tree = tree;
    let mut printed = Vec::new(alloc);
    if answer_lines(alloc, directory, &mut tree, text, &mut printed).is_err() {
        return Err(OneFault::Memory);
    }
    match write_text(printed.as_slice(), out) {
        Ok(()) => Ok(tree),
        Err(_) => Err(OneFault::Write),
    }
}
