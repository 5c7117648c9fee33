//! Laws of translations and comparisons.

ghost use Rattle.acl_bridge.specs.Comparison.{PairsSuffice, TwoGroupsSuffice};
ghost use Rattle.acl_bridge.specs.TranslationLaws.{TranslationDecidesAlike};
ghost use Rattle.acl_bridge.specs.TranslationLaws.{TranslationGrantsAsMuch, TranslationGrantsEach};
ghost use Rattle.acl_bridge.specs.TranslationLaws.{TranslationShowsTheClasses, TranslationIsShort};
ghost use Rattle.acl_bridge.specs.TranslationLaws.{FileInheritsTheTranslation, DirectoryHandsItOn};

/// A POSIX access control list and its translation grant every requester the same single
/// permissions to read, write or execute.
///
/// The translation grants a set of permissions exactly if the list grants each of them by itself;
/// so it grants whatever set the list grants, and more if no single entry of the list grants all of
/// it. Its mode has the permissions of the owner, of the file's group under the mask and of the
/// others, and it has at most 125 entries (1003.1e draft 17, section 23; RFC 8881, sections 6.2.1
/// and 6.3.2). There is nothing to run here: a proof cites the contract.
pub fn translation_laws()
    ensures alike { TranslationDecidesAlike }
    ensures as_much { TranslationGrantsAsMuch }
    ensures each { TranslationGrantsEach }
    ensures mode { TranslationShowsTheClasses }
    ensures length { TranslationIsShort }
{}

/// A new file inherits from the translation of a default list that list's translation, and a new
/// directory the same to pass on below (RFC 8881, section 6.4.3). There is nothing to run here: a
/// proof cites the contract.
pub fn default_translation_laws()
    ensures file { FileInheritsTheTranslation }
    ensures directory { DirectoryHandsItOn }
{}

/// Two POSIX lists, each for a file of its own owners, grant a request, of however many
/// permissions, to the same requesters if they do so for the requester of each pair of entries, one
/// of each list. So it is enough that they do so for requesters in at most two groups. There is
/// nothing to run here: a proof cites the contract.
pub fn posix_comparison_laws()
    ensures pairs { PairsSuffice }
    ensures two_groups { TwoGroupsSuffice }
{}
