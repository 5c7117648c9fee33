//! The line of an answer: `granted` or `denied`.
ghost use Rattle.std.specs.Prelude.{◌≡◌};
ghost use Rattle.acl_queries.specs.DecideAnswer.{answer_line};

/// The line of an answer: `granted` or `denied`, and a newline.
pub fn answer_line(granted: bool) -> &'static str
    ensures { result.now ≡ answer_line granted }
{
    if granted { "granted\n" } else { "denied\n" }
}
