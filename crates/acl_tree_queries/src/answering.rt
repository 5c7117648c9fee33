//! From the fields of a command to a tree that is printed.
ghost use Rattle.std.specs.Prelude.{◌≡◌, ◌++◌, ℕ, IfErr, List, OnOk};
ghost use Rattle.clap.specs.Words.{found_of, rows_of};
ghost use Rattle.acl_cli.specs.Commands.{Comes};
ghost use Rattle.acl_names.specs.Directory.{Known};
ghost use Rattle.acl_tree.specs.Shape.{NodesAreAtPaths};
ghost use Rattle.acl_tree.specs.Tree.{NodesUnderUmask};
ghost use Rattle.acl_tree_queries.specs.TreeMeaning.{IsAnswerFailure, tree_meaning};

use crate::setup_tree::{SetupTree, open_tree};
use acl_cli::{Ending, ErrorOutput, Failure, OpenFiles, write_text};
use clap::ArgMatches;
use std::alloc::Global;
use std::io::{Read, Write};

/// How a command prints a setup's tree.
pub(crate) trait PrintTree {
    /// The text answers, of this directory and this tree.
    ghost IsAnswer: { Known → NodesUnderUmask → List ℕ → Type 0 };

    /// The tree is such that it isn't printed.
    ghost IsRefused: { NodesUnderUmask → Type 0 };

    /// Appends the answer.
    fn push<'n>(alloc: Global, given: &SetupTree, out: &mut Vec<u8>) -> Result<(), Failure<'n>>
        requires { NodesAreAtPaths given.now.tree }
        ensures text { OnOk result ((text : List ℕ)
            × IsAnswer given.now.directory given.now.tree text
            × (out.new.items ≡ out.old.items ++ text)) }
        ensures refused { IfErr result (IsAnswerFailure (IsRefused given.now.tree)) };
}

/// Prints the tree that the files give which the fields name.
pub(crate) fn answer_tree<'a, P, F, I, W, E>(
    alloc: Global,
    files: &F,
    matches: &ArgMatches<'a>,
    input: &mut I,
    out: &mut W,
    _err: &mut ErrorOutput<E>,
) -> Result<Ending, Failure<'a>>
where
    P: PrintTree,
    F: OpenFiles,
    I: Read,
    W: Write,
    E: Write + Drop,
    ensures { Comes (tree_meaning P.IsAnswer P.IsRefused (F.bytes_of files.now)
        (I.remaining input.old) (rows_of (found_of matches.now))) result (W.contents out.old)
        (W.contents out.new) _err.old _err.new input.old input.new }
{
    let given = open_tree(alloc, files, matches, input)?;
    let mut text = Vec::new(alloc);
    P::push(alloc, &given, &mut text)?;
    write_text(text.as_slice(), out)?;
    Ok(Ending::Answered)
}
