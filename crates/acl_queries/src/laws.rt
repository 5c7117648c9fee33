//! Laws about the commands' definitions. There is nothing to run here: a proof cites the contracts.
ghost use Rattle.std.specs.Prelude.{◌≡◌, ◌↔◌, List, Ok, false, true, ℕ};
ghost use Rattle.clap.specs.Words.{matches_of};
ghost use Rattle.acl_nfs4.specs.declared.comparison.Difference.{Difference};
ghost use Rattle.acl_queries.specs.Ask.{Ask};
ghost use Rattle.acl_queries.specs.Asked.{Asked, asked_in};
ghost use Rattle.acl_cli.specs.CommandLine.{Takes};
ghost use Rattle.acl_queries.specs.CompareLine.{compare_line};
ghost use Rattle.acl_queries.specs.Compared.{Compared, compared_in};
ghost use Rattle.acl_queries.specs.DecideAnswer.{IsDecideText};
ghost use Rattle.acl_queries.specs.DecideLine.{decide_line};
ghost use Rattle.acl_queries.specs.Differences.{AreAlike, Differ, IsComparison};
ghost use Rattle.acl_queries.specs.ExplainLine.{explain_line};
ghost use Rattle.acl_queries.specs.ExplainText.{IsExplanation};
ghost use Rattle.acl_queries.specs.Explained.{explained_in};
ghost use Rattle.acl_queries.specs.Explanation.{ClassesDecide, FirstSpeakersDecide};
ghost use Rattle.acl_queries.specs.Explanation.{LaterEntriesDontCount, OtherEntriesDontCount};
ghost use Rattle.acl_queries.specs.Explanation.{SilentEntriesDontCount};
ghost use Rattle.acl_queries.specs.QueryLaws.{HasTheStatusOfItsWords};

/// The exit status of `decide`, `explain` and `compare` follows from their words, unless something
/// is lacking (3): 2 if the parser refuses them, 1 if a field is malformed, and else 0; and 0 for
/// `explain` and `compare` if the words ask for help. No run that ends as the words mean has
/// another.
pub fn statuses_are_those_of_the_words()
    ensures decide { HasTheStatusOfItsWords decide_line false false asked_in IsDecideText }
    ensures explain { HasTheStatusOfItsWords explain_line true true explained_in IsExplanation }
    ensures compare { HasTheStatusOfItsWords compare_line true true compared_in IsComparison }
{}

/// The query of `decide` is what its fields give, each field by itself, and nothing else.
pub fn words_ask_what_they_give()
    ensures { (words : List (List ℕ)) (asked : Asked)
        → Ask words asked ↔ (Takes decide_line words
        × (asked_in (matches_of decide_line words) ≡ Ok asked)) }
{}

/// Lists that grant every requester the same differ for nobody: of the two answers of `compare` at
/// most one is right.
pub fn alike_lists_differ_for_nobody()
    ensures { (compared : Compared) (difference : Difference) → AreAlike compared
        → Differ compared difference → ⊥ }
{}

/// In a POSIX list one class of entries decides, and no permissions count but those of its entries
/// and, if the mask limits the class, the mask's. In an NFSv4 list the first entry that allows or
/// denies a bit decides it: later entries don't count, and neither do those without the bit.
pub fn explanation_laws()
    ensures classes { ClassesDecide }
    ensures others { OtherEntriesDontCount }
    ensures speakers { FirstSpeakersDecide }
    ensures silent { SilentEntriesDontCount }
    ensures later { LaterEntriesDontCount }
{}
