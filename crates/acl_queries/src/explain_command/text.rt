//! The answer of `explain` as text.
ghost use Rattle.std.specs.Prelude.{◌≡◌, ◌↔◌, ◌++◌, IfOk, IsTrue, OnOk};
ghost use Rattle.acl_nfs4.specs.Evaluation.{Grants};
ghost use Rattle.acl_nfs4.specs.Mask.{mask_of};
ghost use Rattle.acl_nfs4.specs.Who.{matches};
ghost use Rattle.acl_posix.specs.Perms.{bits_of};
ghost use Rattle.acl_queries.specs.ExplainText.{Decides, IsExplanation};
ghost use Rattle.acl_queries.specs.Reasons.{reasons};

use super::question::Question;
use crate::command::acl::empty_directory;
use crate::command::answer::answer_line;
use crate::reasons::{FileRequest, push_reasons};
use acl_bridge::AnyAcl;
use acl_names::{Directory, Gid, Requester, Uid};
use acl_nfs4::{Acl4, mask_of};
use acl_posix::Perms;
use std::alloc::{AllocError, Global};

/// Whether an NFSv4 list grants the permissions.
fn grants_perms(acl: &Acl4, owner: Uid, group: Gid, requester: &Requester, perms: Perms) -> bool
    ensures { IsTrue result ↔ Grants (matches owner group requester.now) acl.now
        (mask_of (bits_of perms)) }
{
    let mask = mask_of(perms);
    acl.grants4(owner, group, requester, mask)
}

impl Question {
    fn asked(&self) -> FileRequest<'_>
        ensures { result ≡ self.now.asked }
    {
        FileRequest {
            owner: self.owner,
            group: self.group,
            requester: &self.requester,
            request: self.request,
        }
    }

    /// Whether the request is granted.
    fn is_granted(&self) -> bool
        ensures { Decides self.now.asked self.now.acl result }
    {
        let (owner, group) = (self.owner, self.group);
        match &self.acl {
            AnyAcl::Posix(acl) => acl.grants(owner, group, &self.requester, self.request),
            AnyAcl::Nfs4(acl) => grants_perms(acl, owner, group, &self.requester, self.request),
        }
    }

    /// Appends the entries that decide.
    fn push_reasons(&self, directory: &Directory, out: &mut Vec<u8>) -> Result<(), AllocError>
        ensures { OnOk result (out.new.items ≡ out.old.items
            ++ reasons directory.now self.now.asked self.now.acl) }
    {
        push_reasons(&self.asked(), self.acl.as_ref(), directory, out)
    }
}

/// The text of the answer.
pub(super) fn explanation_text(alloc: Global, question: &Question) -> Result<Vec<u8>, AllocError>
    ensures { IfOk result (λ text. IsExplanation question.now text.items) }
{
    let directory = empty_directory(alloc)?;
    let mut text = Vec::new(alloc);
    text.extend_from_slice(answer_line(question.is_granted()).as_bytes())?;
    question.push_reasons(&directory, &mut text)?;
    Ok(text)
}
