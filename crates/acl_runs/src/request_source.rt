//! The requests of a session.
use std::alloc::AllocError;

/// The requests of a session, one after the other.
pub trait RequestSource: Send + Drop {
    /// What is requested.
    type Request: Send + Drop;

    ghost use Rattle.std.specs.Prelude.{◌≡◌, ◌++◌, [], List, IfOk, IfNone, option_to_list};

    /// The requests that are still to come.
    ghost rest: { Self → List Self.Request };

    /// Takes the next request; `None` if there is none left. Fails only if memory runs out.
    fn next(&mut self) -> Result<Option<Self::Request>, AllocError>
        ensures next { IfOk result (λ next. rest self.old ≡ option_to_list next ++ rest self.new) }
        ensures none { IfOk result (λ next. IfNone next (rest self.old ≡ [])) };
}
