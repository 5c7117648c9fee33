//! The tree that is printed: that of a setup, or what sessions leave on it.
ghost use Rattle.std.specs.Prelude.{◌≡◌, ◌≢◌, ◌≤◌, All, Contains, IfErr, IfOk, OnOk, length};
ghost use Rattle.std.specs.Prelude.{option_map};
ghost use Rattle.clap.specs.Words.{found_of, rows_of};
ghost use Rattle.acl_lang.specs.declared.limits.TheConstants.{MAX_TEXT_LEN};
ghost use Rattle.acl_cli.specs.Failures.{IsUnexplained, status_of};
ghost use Rattle.acl_cli.specs.SessionFiles.{HasBytes, HaveBytes, all_names, input_count, setup_in};
ghost use Rattle.acl_cli.specs.SessionFiles.{shown_names};
ghost use Rattle.acl_tree.specs.Shape.{NodesAreAtPaths};
ghost use Rattle.acl_tree_queries.specs.SetupTree.{IsSetupTree, inputs_in, sessions_in, tree_left};
ghost use Rattle.acl_tree_queries.specs.TreeMeaning.{IsNamesFailure, IsTreeFailure};

use acl_cli::session_files::{
    count_inputs, names_field, read_sessions, read_unexplained, setup_field,
};
use acl_cli::{Failure, Misuse, OpenFiles};
use acl_lang::MAX_TEXT_LEN;
use acl_names::Directory;
use acl_service::{apply_text, open_setup};
use acl_tree::Tree;
use clap::ArgMatches;
use std::alloc::{AllocError, Global};
use std::io::Read;

/// The users and groups, and the tree.
#[derive(Drop)]
pub(crate) struct SetupTree {
    pub directory: Directory,
    pub tree: Tree,
}

/// The texts of files.
#[derive(Drop)]
struct Texts {
    setup: Vec<u8>,
    sessions: Vec<Vec<u8>>,
}

/// How many of the names are that of standard input, if there are names.
fn inputs_among(names: Option<&[&str]>) -> usize
    ensures { result ≡ input_count (all_names (option_map shown_names names.entry)) }
{
    match names {
        Some(names) => count_inputs(names),
        None => 0,
    }
}

/// The texts of the sessions with these names; empty without names.
fn read_any<'a, F: OpenFiles, I: Read>(
    alloc: Global,
    files: &F,
    input: &mut I,
    names: Option<&[&'a str]>,
) -> Result<Vec<Vec<u8>>, Failure<'a>>
    requires { input_count (all_names (option_map shown_names names)) ≤ 1 }
    ensures short { IfOk result (λ texts. All (λ text. length text.items ≤ MAX_TEXT_LEN)
        texts.items) }
    ensures bytes { IfOk result (λ texts. HaveBytes (F.bytes_of files.now) (I.remaining input.old)
        (all_names (option_map shown_names names.entry)) texts.items) }
    ensures untouched { input_count (all_names (option_map shown_names names.entry)) ≡ 0
        → input.new ≡ input.old }
    ensures usage { IfErr result (λ failure. status_of failure ≢ 2) }
    ensures refused { IfErr result (IsUnexplained
        (Contains (all_names (option_map shown_names names.entry)))) }
{
    match names {
        Some(names) => read_sessions(alloc, files, input, names, MAX_TEXT_LEN),
        None => Ok(Vec::new(alloc)),
    }
}

/// Reads the files that the words name: the setup, and then the sessions. One of these may be `-`,
/// whose text is what `input` has; else nothing of `input` is read.
fn read_texts<'a, F: OpenFiles, I: Read>(
    alloc: Global,
    files: &F,
    matches: &ArgMatches<'a>,
    input: &mut I,
) -> Result<Texts, Failure<'a>>
    ensures short { IfOk result (λ texts. All (λ text. length text.items ≤ MAX_TEXT_LEN)
        texts.sessions.items) }
    ensures setup { IfOk result (λ texts.
        HasBytes (F.bytes_of files.now (setup_in (rows_of (found_of matches.now))))
        texts.setup.items) }
    ensures sessions { IfOk result (λ texts. HaveBytes (F.bytes_of files.now)
        (I.remaining input.old) (sessions_in (rows_of (found_of matches.now)))
        texts.sessions.items) }
    ensures untouched { inputs_in (rows_of (found_of matches.now)) ≡ 0 → input.new ≡ input.old }
    ensures unread { IfErr result (λ failure. status_of failure ≡ 2 → input.new ≡ input.old) }
    ensures refused { IfErr result (IsNamesFailure (rows_of (found_of matches.now))) }
{
    let names = names_field(matches, "session");
    if inputs_among(names) > 1 {
        return Err(Failure::Misuse(Misuse::InputTwice));
    }
    let setup = read_unexplained(alloc, files, setup_field(matches), MAX_TEXT_LEN)?;
    let sessions = read_any(alloc, files, input, names)?;
    Ok(Texts { setup, sessions })
}

/// Applies the commands of the texts to the tree, one text after the other.
fn apply_texts(
    alloc: Global,
    directory: &Directory,
    tree: &mut Tree,
    texts: &[Vec<u8>],
) -> Result<(), AllocError>
    requires { All (λ text. length text.items ≤ MAX_TEXT_LEN) texts.now }
    ensures { OnOk result (tree.new ≡ tree_left directory.now tree.old texts.now) }
{
    for text in texts {
        apply_text(alloc, directory, tree, text.as_slice())?;
    }
    Ok(())
}

/// What sessions with these texts leave on the tree of this setup.
fn leave_tree(
    alloc: Global,
    directory: Directory,
    mut tree: Tree,
    texts: &[Vec<u8>],
) -> Result<SetupTree, AllocError>
    requires { All (λ text. length text.items ≤ MAX_TEXT_LEN) texts.now }
    ensures directory { IfOk result (λ left. left.directory ≡ directory) }
    ensures tree { IfOk result (λ left. left.tree ≡ tree_left directory tree texts.now) }
{
    apply_texts(alloc, &directory, &mut tree, texts)?;
    Ok(SetupTree { directory, tree })
}

/// The tree that the files give which the words name.
pub(crate) fn open_tree<'a, F: OpenFiles, I: Read>(
    alloc: Global,
    files: &F,
    matches: &ArgMatches<'a>,
    input: &mut I,
) -> Result<SetupTree, Failure<'a>>
    ensures opened { IfOk result (λ opened. IsSetupTree (F.bytes_of files.now)
        (I.remaining input.old) (rows_of (found_of matches.now)) opened.directory opened.tree) }
    ensures paths { IfOk result (λ opened. NodesAreAtPaths opened.tree) }
    ensures untouched { inputs_in (rows_of (found_of matches.now)) ≡ 0 → input.new ≡ input.old }
    ensures unread { IfErr result (λ failure. status_of failure ≡ 2 → input.new ≡ input.old) }
    ensures refused { IfErr result (IsTreeFailure (F.bytes_of files.now)
        (rows_of (found_of matches.now))) }
{
    let texts = read_texts(alloc, files, matches, input)?;
    let (directory, tree) = open_setup(alloc, texts.setup.as_slice())?;
    Ok(leave_tree(alloc, directory, tree, texts.sessions.as_slice())?)
}
