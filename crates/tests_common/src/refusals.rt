//! How a test counts failed allocations.

/// How many failures a test saw.
#[derive(Clone, Copy)]
pub struct Refusals {
    reported: u32,
}

impl Refusals {
    /// None yet.
    pub fn new() -> Refusals {
        Refusals { reported: 0 }
    }

    /// One more.
    pub fn one_more(&mut self) {
        self.reported = self.reported.saturating_add(1);
    }

    /// What the attempt gives, at the second one if the first is refused, which counts as one more.
    pub fn again<T, F: Fn() -> Option<T>>(&mut self, attempt: F) -> Option<T>
        requires { F.IsAlwaysCallable attempt }
    {
        match attempt() {
            Some(value) => Some(value),
            None => {
                self.one_more();
                attempt()
            }
        }
    }

    /// How many there were.
    pub fn reported(&self) -> u32 {
        self.reported
    }
}
