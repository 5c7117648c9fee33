//! The commands, by their names.
ghost use Rattle.std.specs.Prelude.{◌≡◌, map};
ghost use Rattle.aclctl.specs.Names.{asked, help_about, name_of, named};

use std::convert::AsStr;

/// The commands, and help and the version.
#[derive(Clone, Copy, Debug, PartialEq, Eq)]
pub enum Named {
    Decide,
    Explain,
    Compare,
    Run,
    Who,
    Why,
    Impact,
    Restore,
    Translate,
    Next,
    List,
    Accounts,
    Dump,
    Lint,
    Help,
    Version,
}

impl Named {
    /// The command with this name; `None` for other words.
    pub fn of(word: &str) -> Option<Named>
        ensures { result ≡ named word.now }
    {
        match word {
            "decide" => Some(Named::Decide),
            "explain" => Some(Named::Explain),
            "compare" => Some(Named::Compare),
            "run" => Some(Named::Run),
            "who" => Some(Named::Who),
            "why" => Some(Named::Why),
            "impact" => Some(Named::Impact),
            "restore" => Some(Named::Restore),
            "translate" => Some(Named::Translate),
            "next" => Some(Named::Next),
            "list" => Some(Named::List),
            "accounts" => Some(Named::Accounts),
            "dump" => Some(Named::Dump),
            "lint" => Some(Named::Lint),
            "help" | "--help" | "-h" => Some(Named::Help),
            "--version" => Some(Named::Version),
            _ => None,
        }
    }

    /// Its name.
    pub fn name(self) -> &'static str
        ensures { result.now ≡ name_of self }
    {
        match self {
            Named::Decide => "decide",
            Named::Explain => "explain",
            Named::Compare => "compare",
            Named::Run => "run",
            Named::Who => "who",
            Named::Why => "why",
            Named::Impact => "impact",
            Named::Restore => "restore",
            Named::Translate => "translate",
            Named::Next => "next",
            Named::List => "list",
            Named::Accounts => "accounts",
            Named::Dump => "dump",
            Named::Lint => "lint",
            Named::Help => "--help",
            Named::Version => "--version",
        }
    }
}

/// What words ask for.
#[derive(Clone, Copy, Debug, PartialEq, Eq)]
pub enum Asked {
    Command(Named),
    /// The help of a command.
    HelpOf(Named),
    /// There is no word, or the first isn't a command's name.
    Nothing,
}

impl Asked {
    /// What `help` followed by these words asks for.
    fn help_about<S: AsStr>(words: &[S]) -> Asked
        ensures { result ≡ help_about (map S.text words.now) }
    {
        let Some(word) = words.first() else {
            return Asked::Command(Named::Help);
        };
        match Named::of(word.as_str()) {
            Some(command) => Asked::HelpOf(command),
            None => Asked::Nothing,
        }
    }

    /// What the words ask for: the first is the name of a command, or `help` with a name after it.
    pub fn of<S: AsStr>(words: &[S]) -> Asked
        ensures { result ≡ asked (map S.text words.now) }
    {
        let Some((first, more)) = words.split_first() else {
            return Asked::Nothing;
        };
        if first.as_str() == "help" {
            return Asked::help_about(more);
        }
        match Named::of(first.as_str()) {
            Some(command) => Asked::Command(command),
            None => Asked::Nothing,
        }
    }
}
