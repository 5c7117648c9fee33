//! How answers are printed, which of them are errors, and what is kept of them.
ghost use Rattle.std.specs.Prelude.{◌≡◌};

use acl_lang::{Answer, render};
use acl_names::Directory;
use acl_runs::Replies;
use acl_tree::Reply;
use std::alloc::AllocError;
use std::marker::{Model, PhantomData};
use std::snapshot::Snapshot;

/// What a report may keep of an answer: the answer itself, or less.
pub(super) trait KeptAnswer: Send + Drop {
    ghost use Rattle.std.specs.Prelude.{◌≡◌};
    ghost use Rattle.acl_lang.specs.declared.answer.Answer.{Answer};

    /// What is kept of an answer.
    ghost kept: { Answer → Self };

    /// Keeps of an answer what is kept of it, and lets go of the rest.
    fn of(answer: Answer) -> Self
        ensures { result ≡ kept answer };
}

impl KeptAnswer for Answer {
    ghost kept = { λ answer. answer };

    fn of(answer: Answer) -> Answer {
        answer
    }
}

/// An answer that was printed and let go. It takes no memory, and a contract still sees the answer.
#[derive(Drop)]
pub(crate) struct PrintedAnswer {
    answer: Snapshot<Answer>,
}

impl Model for PrintedAnswer {
    ghost use Rattle.acl_lang.specs.declared.answer.Answer.{Answer};

    ghost Value = { Answer };

    ghost view = { λ printed. printed.answer.value };
}

impl KeptAnswer for PrintedAnswer {
    ghost kept = { λ answer. answer };

    fn of(answer: Answer) -> PrintedAnswer {
        PrintedAnswer {
            answer: Snapshot::of(&answer),
        }
    }
}

/// Prints answers, with the names of a directory, and keeps of each what `K` says.
#[derive(Drop)]
pub(super) struct Printer<'a, K> {
    pub(super) directory: &'a Directory,
    pub(super) kept: PhantomData<K>,
}

impl<'a, K: KeptAnswer + Sync> Replies for Printer<'a, K> {
    type Reply = Answer;

    type Kept = K;

    ghost use Rattle.acl_service.specs.Sessions.{handling_of};

    ghost handling = { λ printer. handling_of printer.directory.now K.kept };

    fn print(&self, answer: &Answer, out: &mut Vec<u8>) -> Result<(), AllocError> {
        render(answer, self.directory, out)
    }

    fn is_error(&self, answer: &Answer) -> bool {
        matches!(answer.reply, Reply::Refused(_) | Reply::Fault(_))
    }

    fn keep(&self, answer: Answer) -> K {
        K::of(answer)
    }
}
