//! The names of a directory, alone and in its domain.

ghost use Rattle.std.specs.Prelude.{◌≡◌, ◌∷◌, [], IfErr, IfOk, Err, Ok};
ghost use Rattle.acl_names.specs.Bytes.{at_sign};
ghost use Rattle.acl_names.specs.Pieces.{parts};
ghost use Rattle.acl_names.specs.Views.{view_written};
ghost use Rattle.acl_nfs4.specs.WrittenHere.{written_here};

use acl_names::{
    Directory, Gid, NameFault, Parts, ResolveNames, Uid, WrittenId, is_domain, read_decimal,
};

/// Resolves ids, and the names of a directory's users and groups, alone (`alice`) and in the
/// directory's domain (`alice@example.org`). A name in another domain is unknown.
#[derive(Drop)]
pub struct NamesInDomain<'a> {
    pub directory: &'a Directory,
}

impl<'a> ResolveNames for NamesInDomain<'a> {
    ghost use Rattle.acl_nfs4.specs.AceText.{names_in_domain};

    ghost names = { λ names. names_in_domain names.directory.now };

    #[inline(always)]
    fn uid_written(&self, text: &[u8]) -> Result<Uid, NameFault> {
        let written = written_here(self.directory, text)?;
        self.directory.uid(written).ok_or(NameFault::Unknown)
    }

    #[inline(always)]
    fn gid_written(&self, text: &[u8]) -> Result<Gid, NameFault> {
        let written = written_here(self.directory, text)?;
        self.directory.gid(written).ok_or(NameFault::Unknown)
    }

    /// Always `None`: the reader of entries cuts off their fields.
    fn uid_in_front<'t>(&self, _text: &'t [u8]) -> Option<(Uid, &'t [u8])> {
        None
    }

    /// Always `None`: the reader of entries cuts off their fields.
    fn gid_in_front<'t>(&self, _text: &'t [u8]) -> Option<(Gid, &'t [u8])> {
        None
    }
}

/// The id that the text writes, or the name without the directory's domain.
#[inline(always)]
fn written_here<'t>(directory: &Directory, text: &'t [u8]) -> Result<WrittenId<'t>, NameFault>
    ensures ok { IfOk result (λ written. written_here directory.now.domain (parts at_sign text.now)
        ≡ Ok (view_written written)) }
    ensures err { IfErr result (λ fault. written_here directory.now.domain (parts at_sign text.now)
        ≡ Err fault) }
{
    // Decimals, which are the most common, are recognised first.
    if let Some(number) = read_decimal(text) {
        return Ok(WrittenId::Number(number));
    }
    written_by_parts(directory, text)
}

/// The same by the parts between each `@`.
fn written_by_parts<'t>(directory: &Directory, text: &'t [u8]) -> Result<WrittenId<'t>, NameFault>
    ensures ok { IfOk result (λ written. written_here directory.now.domain (parts at_sign text.now)
        ≡ Ok (view_written written)) }
    ensures err { IfErr result (λ fault. written_here directory.now.domain (parts at_sign text.now)
        ≡ Err fault) }
{
    let mut parts = Parts::new(b'@', text);
    match (parts.next(), parts.next(), parts.next()) {
        (Some(id), None, _) => WrittenId::read(id).ok_or(NameFault::Malformed),
        (Some(name), Some(domain), None) => name_here(directory, name, domain),
        _ => Err(NameFault::Malformed),
    }
}

/// The name, if the domain is the directory's.
fn name_here<'t>(
    directory: &Directory,
    name: &'t [u8],
    domain: &[u8],
) -> Result<WrittenId<'t>, NameFault>
    ensures ok { IfOk result (λ written. written_here directory.now.domain
        (name.now ∷ domain.now ∷ []) ≡ Ok (view_written written)) }
    ensures err { IfErr result (λ fault. written_here directory.now.domain
        (name.now ∷ domain.now ∷ []) ≡ Err fault) }
{
    let Some(WrittenId::Name(name)) = WrittenId::read(name) else {
        return Err(NameFault::Malformed);
    };
    if !is_domain(domain) {
        return Err(NameFault::Malformed);
    }
    if domain == directory.domain().as_bytes() {
        Ok(WrittenId::Name(name))
    } else {
        Err(NameFault::Unknown)
    }
}
