//! Gates that wait for each other, count, or shut.
use acl_service::Gate;
use std::sync::atomic::{AtomicBool, AtomicU32, Ordering};
use std::thread;

/// Waits for a flag that another thread sets. False where it wasn't set in so many turns.
fn wait_for(flag: &AtomicBool) -> bool {
    for _ in 0..100_000_000u32 {
        if flag.load(Ordering::SeqCst) {
            return true;
        }
        thread::yield_now();
    }
    false
}

/// The first request of each of two sessions waits for the other's.
#[derive(Drop)]
pub struct Meeting {
    arrived: [AtomicBool; 2],
}

impl Meeting {
    pub fn new() -> Meeting {
        Meeting {
            arrived: [AtomicBool::new(false), AtomicBool::new(false)],
        }
    }
}

impl Gate for Meeting {
    fn may_submit(&self, session: u32, nth: u32) -> bool {
        if nth != 1 {
            return true;
        }
        let [first, second] = &self.arrived;
        let (own, other) = if session == 0 {
            (first, second)
        } else {
            (second, first)
        };
        own.store(true, Ordering::SeqCst);
        wait_for(other)
    }

    fn answered(&self, _session: u32, _nth: u32) {}
}

/// A request of one session waits until the other has an answer of a number.
#[derive(Drop)]
pub struct AfterAnswer {
    waiting: u32,
    request: u32,
    answer: u32,
    answered: AtomicBool,
}

impl AfterAnswer {
    pub fn new(waiting: u32, request: u32, answer: u32) -> AfterAnswer {
        AfterAnswer {
            waiting,
            request,
            answer,
            answered: AtomicBool::new(false),
        }
    }
}

impl Gate for AfterAnswer {
    fn may_submit(&self, session: u32, nth: u32) -> bool {
        session != self.waiting || nth != self.request || wait_for(&self.answered)
    }

    fn answered(&self, session: u32, nth: u32) {
        if session != self.waiting && nth == self.answer {
            self.answered.store(true, Ordering::SeqCst);
        }
    }
}

/// Lets everything through but one request.
#[derive(Clone, Copy)]
pub struct ShutAt {
    pub session: u32,
    pub nth: u32,
}

impl Gate for ShutAt {
    fn may_submit(&self, session: u32, nth: u32) -> bool {
        session != self.session || nth != self.nth
    }

    fn answered(&self, _session: u32, _nth: u32) {}
}

/// Lets nothing through.
#[derive(Clone, Copy)]
pub struct Shut;

impl Gate for Shut {
    fn may_submit(&self, _session: u32, _nth: u32) -> bool {
        false
    }

    fn answered(&self, _session: u32, _nth: u32) {}
}

/// Lets everything through, and counts what it is asked and hears of each of two sessions.
#[derive(Drop)]
pub struct Counting {
    asked: [AtomicU32; 2],
    answered: [AtomicU32; 2],
    is_out_of_order: AtomicBool,
}

impl Counting {
    pub fn new() -> Counting {
        Counting {
            asked: [AtomicU32::new(0), AtomicU32::new(0)],
            answered: [AtomicU32::new(0), AtomicU32::new(0)],
            is_out_of_order: AtomicBool::new(false),
        }
    }

    /// Whether it was asked of each session's requests from 1 to `requests`, and heard of its
    /// answers from 1 to `answers`, each once and in order, and of no answer before its request.
    pub fn has_counted(&self, requests: [u32; 2], answers: [u32; 2]) -> bool {
        let [first_asked, second_asked] = &self.asked;
        let [first_answered, second_answered] = &self.answered;
        !self.is_out_of_order.load(Ordering::SeqCst)
            && first_asked.load(Ordering::SeqCst) == requests[0]
            && second_asked.load(Ordering::SeqCst) == requests[1]
            && first_answered.load(Ordering::SeqCst) == answers[0]
            && second_answered.load(Ordering::SeqCst) == answers[1]
    }

    /// Counts one more of a session, which has to be the one of this number.
    fn count(&self, counts: &[AtomicU32; 2], session: u32, nth: u32) {
        let [first, second] = counts;
        let own = if session == 0 { first } else { second };
        if own.fetch_add(1, Ordering::SeqCst).wrapping_add(1) != nth {
            self.is_out_of_order.store(true, Ordering::SeqCst);
        }
    }
}

impl Gate for Counting {
    fn may_submit(&self, session: u32, nth: u32) -> bool {
        self.count(&self.asked, session, nth);
        true
    }

    fn answered(&self, session: u32, nth: u32) {
        self.count(&self.answered, session, nth);
        let [first, second] = &self.asked;
        let asked = if session == 0 { first } else { second };
        if asked.load(Ordering::SeqCst) < nth {
            self.is_out_of_order.store(true, Ordering::SeqCst);
        }
    }
}
