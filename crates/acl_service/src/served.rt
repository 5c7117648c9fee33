//! The tree as the service behind a broker.
ghost use Rattle.std.specs.Prelude.{◌≡◌};

use acl_broker::Service;
use acl_lang::{Answer, Numbered};
use acl_names::Directory;
use acl_tree::Tree;
use std::alloc::{AllocError, Global};
use std::marker::Model;
use std::snapshot::Snapshot;

/// A tree and its directory, with the allocator that its commands take.
#[derive(Drop)]
pub struct Served<'a> {
    /// The allocator of its commands.
    pub alloc: Global,
    /// The users and groups.
    pub directory: &'a Directory,
    /// The tree.
    pub tree: Tree,
}

impl<'a> Service for Served<'a> {
    ghost use Rattle.std.specs.Prelude.{◌≡◌};
    ghost use Rattle.acl_service.specs.Served.{next_served, reply_served};

    type Request = Numbered;

    type Reply = Answer;

    type Kept = Numbered;

    ghost request_of = { λ numbered. numbered };

    ghost next = { next_served };

    ghost reply = { reply_served };

    fn apply(&mut self, request: &Numbered) -> Result<Answer, AllocError> {
        let reply = self
            .tree
            .apply(self.alloc, &request.request, self.directory)?;
        Ok(Answer {
            line: request.line,
            reply,
        })
    }

    fn keep(request: Numbered) -> Numbered
        ensures { result ≡ request }
    {
        request
    }
}

/// A request, of which only the number of its line is kept: it is small, and a contract still sees
/// the request.
#[derive(Drop)]
pub(crate) struct RequestLine {
    line: u32,
    request: Snapshot<Numbered>,
}

impl Model for RequestLine {
    ghost use Rattle.std.specs.Prelude.{◌≡◌};
    ghost use Rattle.acl_lang.specs.declared.text.Numbered.{Numbered};

    ghost Value = { Numbered };

    ghost view = { λ inside. inside.request.value };

    ghost invariant = { λ inside. inside.line ≡ inside.request.value.line };
}

impl RequestLine {
    fn of(request: &Numbered) -> RequestLine
        ensures { result ≡ request.now }
    {
        RequestLine {
            line: request.line,
            request: Snapshot::of(request),
        }
    }

    /// The number of the request's line.
    pub(crate) fn line(&self) -> u32
        ensures { result ≡ self.now.line }
    {
        self.line
    }
}

/// A `Served` whose journal keeps only the session and the line of an entry: 8 bytes, so that long
/// sessions take less memory.
#[derive(Drop)]
pub(crate) struct ServedInPrint<'a> {
    pub(crate) served: Served<'a>,
}

impl<'a> Model for ServedInPrint<'a> {
    ghost use Rattle.acl_service.specs.ServedCode.{served_code};
    ghost use Rattle.acl_service.specs.declared.served.Served.{Served};

    ghost Value = { Served };

    ghost coded = { served_code };

    ghost view = { λ inside. inside.served };
}

impl<'a> Service for ServedInPrint<'a> {
    ghost use Rattle.std.specs.Prelude.{◌≡◌};
    ghost use Rattle.acl_service.specs.Served.{next_served, reply_served};

    type Request = Numbered;

    type Reply = Answer;

    type Kept = RequestLine;

    ghost request_of = { λ numbered. numbered };

    ghost next = { next_served };

    ghost reply = { reply_served };

    fn apply(&mut self, request: &Numbered) -> Result<Answer, AllocError> {
        self.served.apply(request)
    }

    fn keep(request: Numbered) -> RequestLine
        ensures { result ≡ request }
    {
        RequestLine::of(&request)
    }
}
