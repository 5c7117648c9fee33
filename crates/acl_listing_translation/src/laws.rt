//! Laws of the definitions of `translate`.
ghost use Rattle.std.specs.Prelude.{◌≡◌, ◌∷◌, ◌++◌, [], Bool, List, Ok, Option, ℕ};
ghost use Rattle.acl_names.specs.Bytes.{newline};
ghost use Rattle.acl_names.specs.Names.{Names};
ghost use Rattle.acl_posix.specs.Entry.{EntryValue};
ghost use Rattle.acl_posix.specs.Linux.{linux_list};
ghost use Rattle.acl_posix.specs.Validity.{IsValid};
ghost use Rattle.acl_bridge.specs.TranslationLaws.{DecideAlike};
ghost use Rattle.acl_access.specs.Changes.{IsAlikeToAll};
ghost use Rattle.acl_access.specs.declared.rules.Rules.TheVariants.{Linux};
ghost use Rattle.acl_listings.specs.Block.{FileValue, file_by};
ghost use Rattle.acl_listings.specs.declared.lists.Lists.TheVariants.{Posix};
ghost use Rattle.acl_reports.specs.Files.{file_of};
ghost use Rattle.acl_people.specs.Host.{Host as HostValue, names_of_host};
ghost use Rattle.acl_listing_translation.specs.TranslateLaws.{IsReported, ReportsNothing};
ghost use Rattle.acl_listing_translation.specs.TranslateLaws.{ReportsNothingOf};
ghost use Rattle.acl_listing_translation.specs.TranslateLaws.{with_reported};
ghost use Rattle.acl_listing_translation.specs.Translated.{aces_of};
ghost use Rattle.acl_listing_translation.specs.declared.form.AceForm.{AceForm as FormValue};
ghost use Rattle.acl_listing_translation.specs.declared.lists.TheConstants.{ATTRIBUTES};
ghost use Rattle.acl_listing_translation.specs.declared.lists.TheConstants.{OWNER_ATTRIBUTES};

/// A translated block, in either form, is read again, by the names by which its block was read: as
/// the same file, with the NFSv4 list that was printed. There is nothing to run here: a proof cites
/// the contract.
pub fn translations_are_read_again()
    ensures { (host : HostValue) (form : FormValue) (attributes : Bool) (text reported : List ℕ)
        (file : FileValue) → IsReported host form attributes text file reported
        → (block : List ℕ) × (reported ≡ block ++ newline ∷ newline ∷ [])
        × (file_by (names_of_host host) block ≡ Ok (with_reported attributes file)) }
{}

/// The NFSv4 list that is printed for a file's POSIX lists grants everybody the same single
/// permissions to read, write and execute as the list that Linux evaluates. There is nothing to run
/// here: a proof cites the contract.
pub fn translations_decide_alike()
    ensures { (attributes : Bool) (access : List EntryValue) (default : Option (List EntryValue))
        → IsValid (linux_list access)
        → DecideAlike (linux_list access) (aces_of attributes (Posix access default)) }
{}

/// A file and its translation grant everybody the same, in each bit that is compared. So `impact`
/// prints nothing about the two files, whatever users are evaluated; nor about the two blocks,
/// unless `--text` or `--draft` is given. There is nothing to run here: a proof cites the contract.
pub fn translations_change_nothing()
    ensures alike { (names : Names) (attributes : Bool) (text : List ℕ) (file : FileValue)
        → file_by names text ≡ Ok file
        → IsAlikeToAll (file_of Linux file) (file_of Linux (with_reported attributes file)) }
    ensures files { (names : Names) (attributes : Bool) (text : List ℕ) (file : FileValue)
        → file_by names text ≡ Ok file
        → ReportsNothing (file_of Linux file) (file_of Linux (with_reported attributes file)) }
    ensures blocks { (host : HostValue) (form : FormValue)
        (attributes : Bool)
        (text reported : List ℕ) (file : FileValue)
        → IsReported host form attributes text file reported
        → (block : List ℕ) × (reported ≡ block ++ newline ∷ newline ∷ [])
        × ReportsNothingOf (names_of_host host) text block }
{}

/// What servers also check, `tTnNcCoy` for an owner and `tncy` for everybody, as numbers. There is
/// nothing to run here: a proof cites the contract.
pub fn attributes_in_numbers()
    ensures owner { OWNER_ATTRIBUTES ≡ 0x1e0198 }
    ensures everyone { ATTRIBUTES ≡ 0x120088 }
{}
