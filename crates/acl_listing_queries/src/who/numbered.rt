//! What `who --reach` prints, as numbers.
ghost use Rattle.std.specs.Prelude.{◌≡◌, [], IfOk};
ghost use Rattle.acl_people.specs.Asked.{persons_in};
ghost use Rattle.acl_people.specs.Host.{names_of_host};
ghost use Rattle.acl_reports.specs.Strangers.{stranger_in};
ghost use Rattle.acl_listing_queries.specs.WhoPart.{letters_asked, who_part};
ghost use Rattle.acl_listing_queries.specs.WhoSteps.{IsOnWay, asking_of, stranger_by};

use super::answers::{Answers, Users};
use super::asked::Asked;
use super::command::everyone;
use super::reach::ReachReporter;
use acl_access::Rules;
use acl_people::{Host, People};
use std::alloc::{AllocError, Global};

/// A reporter that appends, for each block of a listing, a byte for each of these people: the
/// number of the letters that `who --reach` prints for them, 4 for `r`, 2 for `w`, 1 for `x`, and 0
/// for no line. The names in blocks are those of `host`, whose accounts are also those that ids in
/// blocks may lack, and `rules` evaluate POSIX lists. Fails only if memory runs out.
pub fn letters_by_reach<'t>(
    alloc: Global,
    host: &'t Host,
    people: &'t People,
    rules: Rules,
) -> Result<ReachReporter<'t>, AllocError>
    ensures part { IfOk result (λ reporter. who_part (asking_of reporter.answers.users)
        ≡ who_part (letters_asked rules (names_of_host host.entry.now)
        (persons_in people.entry.now))) }
    ensures stranger { IfOk result (λ reporter. stranger_by reporter.answers.users
        ≡ stranger_in host.entry.now) }
    ensures stands { IfOk result (λ reporter. IsOnWay reporter []) }
{
    let users = Users {
        host,
        people,
        asked: Asked::Numbers,
        rules,
        reach: true,
    };
    let answers = Answers::new(alloc, users)?;
    let everyone = everyone(alloc, people.requesters.as_slice())?;
    Ok(ReachReporter::new(alloc, answers, everyone))
}
