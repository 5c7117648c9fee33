//! Files of accounts.
ghost use Rattle.std.specs.Prelude.{◌≡◌, ◌≢◌, ◌∷◌, [], ℕ, Err, IfErr, IfOk, IfSome, List, Option};
ghost use Rattle.acl_accounts.specs.Accounts.{rows_within};
ghost use Rattle.acl_accounts.specs.declared.fault.AccountsFault.TheVariants.{Memory};
ghost use Rattle.acl_people.specs.Host.{ReadsAsAccounts, groups_file, own_text};
ghost use Rattle.acl_people.specs.Host.{users_file};
ghost use Rattle.acl_people.specs.HostFailures.{IsAccountsFailure, IsTextFailure};
ghost use Rattle.acl_people.specs.HostFailures.{line_numbered, own_files};

use acl_accounts::{Accounts, AccountsFault, MAX_ACCOUNTS_TEXT};
use acl_cli::{CapFault, Failure, OpenFiles, Reason, Refusal, RunFault, read_capped};
use acl_names::Parts;
use std::alloc::{AllocError, Global};

/// This host's users.
const USERS_FILE: &str = "/etc/passwd";

/// This host's groups.
const GROUPS_FILE: &str = "/etc/group";

/// The name under which faults of these files are reported; their lines are numbered through both.
pub(crate) const OWN_FILES: &str = "/etc/passwd, /etc/group";

/// The word that reports accounts with too many users, groups or bytes.
const TOO_MANY: &str = "too-many";

/// The line with this number, from 1, of a text.
fn line_numbered(number: usize, text: &[u8]) -> &[u8]
    ensures { result.now ≡ line_numbered number text.now }
{
    let mut lines = Parts::new(b'\n', text);
    for _taken in 0..number.saturating_sub(1) {
        // The lines before it aren't needed.
        let _ = lines.next();
    }
    match lines.next() {
        Some(line) => line,
        None => &[],
    }
}

/// Why the text of this name, which has this fault, isn't accounts. It reports the line at fault.
fn failure_of<'a>(alloc: Global, name: &'a str, text: &[u8], fault: AccountsFault) -> Failure<'a>
    ensures { (known : Option (List ℕ)) (files : List (List ℕ))
        → IfSome known (λ those. text.now ≡ those)
        → (fault ≢ Memory → rows_within text.now ≡ Err fault)
        → IsAccountsFailure known files name.entry.now result }
{
    match fault {
        AccountsFault::BadAccount(number) => {
            match Vec::from_slice(alloc, line_numbered(number, text)) {
                Ok(line) => Failure::Refused(Refusal::at_line(name, number, "bad-account", line)),
                Err(AllocError) => Failure::Lacks(RunFault::Memory),
            }
        }
        AccountsFault::TooMany => Failure::Refused(Refusal::as_a_whole(name, TOO_MANY)),
        AccountsFault::Memory => Failure::Lacks(RunFault::Memory),
    }
}

/// The bytes of a file of accounts; `name` is how a fault is reported if there are too many.
fn read_text<'a, F: OpenFiles>(
    alloc: Global,
    files: &F,
    file: &'a str,
    name: &'a str,
) -> Result<Vec<u8>, Failure<'a>>
    ensures whole { IfOk result (λ bytes. IfSome (F.bytes_of files.now file.entry.now)
        (λ those. bytes.items ≡ those)) }
    ensures refused { IfErr result
        (IsTextFailure (F.bytes_of files.now file.entry.now) file.entry.now name.entry.now) }
{
    let mut opened = match files.open(file) {
        Ok(opened) => opened,
        Err(error) => return Err(Failure::CannotRead(file, Reason::of(error.kind()))),
    };
    match read_capped(alloc, &mut opened, MAX_ACCOUNTS_TEXT) {
        Ok(bytes) => Ok(bytes),
        Err(CapFault::Read) => Err(Failure::CannotRead(file, Reason::Unknown)),
        Err(CapFault::TooLong) => Err(Failure::Refused(Refusal::as_a_whole(name, TOO_MANY))),
        Err(CapFault::Memory) => Err(Failure::Lacks(RunFault::Memory)),
    }
}

/// The accounts of the file of this name.
pub(super) fn read_accounts<'a, F: OpenFiles>(
    alloc: Global,
    files: &F,
    name: &'a str,
) -> Result<Accounts, Failure<'a>>
    ensures opened { IfOk result (ReadsAsAccounts (F.bytes_of files.now name.entry.now)) }
    ensures refused { IfErr result (IsAccountsFailure (F.bytes_of files.now name.entry.now)
        (name.entry.now ∷ []) name.entry.now) }
{
    let text = read_text(alloc, files, name, name)?;
    match Accounts::read(alloc, text.as_slice()) {
        Ok(accounts) => Ok(accounts),
        Err(fault) => Err(failure_of(alloc, name, text.as_slice(), fault)),
    }
}

/// The text of this host's own accounts: its users' file, a newline, and its groups' file.
fn read_own_text<'a, F: OpenFiles>(alloc: Global, files: &F) -> Result<Vec<u8>, Failure<'a>>
    ensures whole { IfOk result (λ bytes. IfSome (own_text (F.bytes_of files.now))
        (λ those. bytes.items ≡ those)) }
    ensures refused { IfErr result (IsAccountsFailure (own_text (F.bytes_of files.now))
        (users_file ∷ groups_file ∷ []) own_files) }
{
    let mut text = read_text(alloc, files, USERS_FILE, OWN_FILES)?;
    let groups = read_text(alloc, files, GROUPS_FILE, OWN_FILES)?;
    text.push(b'\n')?;
    text.extend_from_slice(groups.as_slice())?;
    Ok(text)
}

/// This host's own accounts.
pub(super) fn read_own_accounts<'a, F: OpenFiles>(
    alloc: Global,
    files: &F,
) -> Result<Accounts, Failure<'a>>
    ensures opened { IfOk result (ReadsAsAccounts (own_text (F.bytes_of files.now))) }
    ensures refused { IfErr result (IsAccountsFailure (own_text (F.bytes_of files.now))
        (users_file ∷ groups_file ∷ []) own_files) }
{
    let text = read_own_text(alloc, files)?;
    match Accounts::read(alloc, text.as_slice()) {
        Ok(accounts) => Ok(accounts),
        Err(fault) => Err(failure_of(alloc, OWN_FILES, text.as_slice(), fault)),
    }
}
