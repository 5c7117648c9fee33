//! A small service, with brokers of it.
ghost use Rattle.std.specs.Prelude.{◌≤◌, [], ◌∷◌};
ghost use Rattle.acl_broker.specs.Ends.{AreEndsOf};
ghost use Rattle.acl_broker.specs.Takers as takers;
ghost use Rattle.acl_broker.specs.declared.limits.TheConstants.{SESSIONS};
ghost use Rattle.acl_broker.specs.declared.end.End.TheVariants.{Open};

use acl_broker::{Broker, CancelRefused, End, Service, SessionEnd, TakeRefused, Taker};
use std::alloc::{AllocError, Global};
use std::test::Fail;

/// A service that knows the request that it applied last.
#[derive(Drop)]
pub(super) struct Last {
    pub(super) request: u16,
}

/// A reply reports its place: the request, and the one that was applied before it.
#[derive(Drop, Clone, Copy, Debug, PartialEq, Eq)]
pub(super) struct Follows {
    pub(super) before: u16,
    pub(super) request: u16,
}

impl Service for Last {
    type Request = u16;

    type Reply = Follows;

    type Kept = u16;

    ghost use Rattle.std.specs.Prelude.{◌≡◌};
    ghost use Rattle.tests_broker.specs.declared.fixture.Last.{Last};
    ghost use Rattle.tests_broker.specs.declared.fixture.Follows.{Follows};

    ghost request_of = { λ kept. kept };

    ghost next = { λ last request. record { request = request } };

    ghost reply = { λ last request. record { before = last.request; request = request } };

    fn apply(&mut self, request: &u16) -> Result<Follows, AllocError> {
        let reply = Follows {
            before: self.request,
            request: *request,
        };
        self.request = *request;
        Ok(reply)
    }

    fn keep(request: u16) -> u16
        ensures { result ≡ request }
    {
        request
    }
}

/// The reply to a request, after the one before it.
pub(super) fn reply_to(before: u16, request: u16) -> Option<Follows> {
    Some(Follows { before, request })
}

/// A broker to which nothing was submitted yet.
pub(super) fn open_broker(alloc: Global, sessions: u32) -> Result<Broker<Last>, Fail>
    requires { (1 ≤ sessions) × (sessions ≤ SESSIONS) }
{
    match Broker::open(alloc, sessions, Last { request: 0 }) {
        Ok(broker) => Ok(broker),
        Err(_) => Err("no room for a broker".into()),
    }
}

/// A split broker of one session: its end, and its taker.
#[derive(Drop)]
pub(super) struct Halves {
    pub(super) end: SessionEnd<u16, Follows>,
    pub(super) taker: Taker<Last>,
    ghost paired: { AreEndsOf (Open end ∷ []) (takers.view taker).sides },
}

impl Halves {
    /// Splits a broker of one session, which is open.
    pub(super) fn split(broker: Broker<Last>) -> Result<Halves, Fail> {
        if !broker.all_open() {
            return Err("a session that isn't open".into());
        }
        let (mut ends, taker) = broker.split();
        let Some(End::Open(end)) = ends.pop() else {
            return Err("no open end".into());
        };
        if !ends.is_empty() {
            return Err("more than one end".into());
        }
        Ok(Halves { end, taker })
    }

    pub(super) fn submit(&mut self, item: u16) -> Result<(), u16> {
        self.end.submit(item)
    }

    pub(super) fn poll(&mut self) -> Option<Follows> {
        self.end.poll()
    }

    pub(super) fn take(&mut self) -> Result<usize, TakeRefused> {
        self.taker.take(0)
    }

    pub(super) fn deliver(&mut self, session: u32) -> bool {
        self.taker.deliver(session)
    }

    pub(super) fn cancel(&mut self) -> Result<(), CancelRefused> {
        self.taker.cancel(0)
    }

    /// The broker of both halves.
    pub(super) fn rejoin(self, alloc: Global) -> Result<Broker<Last>, Fail> {
        let Halves { end, taker } = self;
        Ok(taker.rejoin(vec![in alloc; End::Open(end)]?))
    }

    /// The broker of both halves, the end closed.
    pub(super) fn rejoin_closed(self, alloc: Global) -> Result<Broker<Last>, Fail> {
        let Halves { end, taker } = self;
        match end.close() {
            Ok(closed) => Ok(taker.rejoin(vec![in alloc; End::Closed(closed)]?)),
            Err(_) => Err("no slot for the end mark".into()),
        }
    }
}
