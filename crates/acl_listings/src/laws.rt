//! Laws of the definitions.

ghost use Rattle.std.specs.Prelude.{◌≡◌, ◌≤◌, ◌+◌, ℕ, List, All, Ok, Err, Some, false, length};
ghost use Rattle.std.specs.Prelude.{map};
ghost use Rattle.acl_names.specs.Directory.{Known, NamesReadBack};
ghost use Rattle.acl_names.specs.Names.{Names};
ghost use Rattle.acl_names.specs.declared.limits.TheConstants.{MAX_ID};
ghost use Rattle.acl_posix.specs.declared.acl_text.AclFault.{AclFault};
ghost use Rattle.acl_nfs4.specs.PrintedText.{short_ace};
ghost use Rattle.acl_forms.specs.ShortForm.{short_entry};
ghost use Rattle.acl_forms.specs.declared.printing.Places.{Places};
ghost use Rattle.acl_listings.specs.Block.{file_by, file_of, FileValue, path_of};
ghost use Rattle.acl_listings.specs.Cursor.{as_handed_out};
ghost use Rattle.acl_listings.specs.Listing.{Block, blocks_of};
ghost use Rattle.acl_listings.specs.FaultyLine.{faulty_kind, list_in, list_lines, lines_read};
ghost use Rattle.acl_listings.specs.Nfs4Block.{AreReadAgain};
ghost use Rattle.acl_listings.specs.Numbered as numbered;
ghost use Rattle.acl_listings.specs.Printed.{listing_text, IsPrintable};
ghost use Rattle.acl_listings.specs.declared.fault.BlockFault.TheVariants.{Acl};
ghost use Rattle.acl_listings.specs.declared.limits.TheConstants.{MAX_BLOCK};

/// The text that the cursor returns for a block has the same file as the block, or the same fault,
/// and the same path. There is nothing to run here: a proof cites the contract.
pub fn handed_blocks_report_the_same()
    ensures file { (known : Known) (block : Block)
        → file_of known (as_handed_out block).text ≡ file_of known block.text }
    ensures path { (block : Block) → path_of (as_handed_out block).text ≡ path_of block.text }
{}

/// Files that are printed as `getfacl` prints them, with the names that a directory has for ids and
/// with marks of effective permissions, are read as these files, one block for each. Each
/// `Directory` distinguishes its names. There is nothing to run here: a proof cites the contract.
pub fn printed_files_are_read_again()
    ensures { (known : Known) (files : List FileValue) → NamesReadBack known
        → All (IsPrintable known) files
        → map (λ block. file_of known block.text) (blocks_of (listing_text known files))
        ≡ map Ok files }
{}

/// Files that are printed with their ids in decimal are read again as these files, one block for
/// each, by whatever names: with their default lists, and with NFSv4 lists that have entries. The
/// path of each block is its file's, also where the list is refused. A block is short enough if its
/// path has at most 60,000 bytes. There is nothing to run here: a proof cites the contract.
pub fn numbered_files_are_read_again()
    ensures said { (files : List FileValue) → All numbered.IsPrintable files
        → numbered.SaysFiles files (numbered.files_text files) }
    ensures paths { (files : List FileValue) → All numbered.IsPrintable files
        → map (λ block. path_of block.text) (blocks_of (numbered.files_text files))
        ≡ map (λ file. Some file.path) files }
    ensures short { (file : FileValue) → length file.path ≤ 60000
        → file.owner ≤ MAX_ID → file.group ≤ MAX_ID → numbered.ArePrintable file.lists
        → length (numbered.file_text file) ≤ MAX_BLOCK + 2 }
{}

/// If a block is refused for its entries, the lines of its list have a malformed one: so there is a
/// line at fault. There is nothing to run here: a proof cites the contract.
pub fn refused_entries_stand_in_lines()
    ensures { (names : Names) (text : List ℕ) (fault : AclFault)
        → file_by names text ≡ Err (Acl fault)
        → lines_read names (faulty_kind names (list_in text)) (list_lines text) ≡ false }
{}

/// If a block's own entries are replaced by lines of NFSv4 entries with decimal ids, in the form of
/// nfs4 or of FreeBSD, it is read as the same file with these entries. There is nothing to run
/// here: a proof cites the contract.
pub fn nfs4_blocks_are_read_again()
    ensures nfs4 { AreReadAgain short_ace }
    ensures freebsd { (places : Places) → AreReadAgain (short_entry places) }
{}
