//! Copies of responses.

ghost use Rattle.std.specs.Prelude.{◌≡◌, IfOk};

use crate::response::{Code, Response};
use imap_values::{TryCopy, copy_two};
use std::alloc::{AllocError, Global};

// One long match, as each arm only copies its fields.
impl TryCopy for Response {
    /// Returns an equal copy. It shares the octets of tags, of names and of messages.
    fn try_copy(&self, alloc: Global) -> Result<Response, AllocError> {
        match self {
            Response::Greeting => Ok(Response::Greeting),
            Response::Capability => Ok(Response::Capability),
            Response::Bye(farewell) => Ok(Response::Bye(*farewell)),
            Response::Done { tag, code } => {
                let (tag, code) = copy_two(tag, code, alloc)?;
                Ok(Response::Done { tag, code })
            }
            Response::Refused { tag, refusal } => {
                let tag = tag.try_copy(alloc)?;
                Ok(Response::Refused {
                    tag,
                    refusal: *refusal,
                })
            }
            Response::Ready => Ok(Response::Ready),
            Response::Idling => Ok(Response::Idling),
            Response::Namespace => Ok(Response::Namespace),
            Response::Enabled(capabilities) => Ok(Response::Enabled(*capabilities)),
            Response::List {
                attributes,
                mailbox,
            } => {
                let mailbox = mailbox.try_copy()?;
                Ok(Response::List {
                    attributes: *attributes,
                    mailbox,
                })
            }
            Response::ListRoot => Ok(Response::ListRoot),
            Response::Status { mailbox, items } => {
                let (mailbox, items) = copy_two(mailbox, items, alloc)?;
                Ok(Response::Status { mailbox, items })
            }
            Response::Acl { mailbox, entries } => {
                let (mailbox, entries) = copy_two(mailbox, entries, alloc)?;
                Ok(Response::Acl { mailbox, entries })
            }
            Response::MyRights { mailbox, rights } => {
                let mailbox = mailbox.try_copy()?;
                Ok(Response::MyRights {
                    mailbox,
                    rights: *rights,
                })
            }
            Response::ListRights {
                mailbox,
                identifier,
                owner,
            } => {
                let (mailbox, identifier) = copy_two(mailbox, identifier, alloc)?;
                Ok(Response::ListRights {
                    mailbox,
                    identifier,
                    owner: *owner,
                })
            }
            Response::Flags { keywords } => {
                let keywords = keywords.try_copy(alloc)?;
                Ok(Response::Flags { keywords })
            }
            Response::PermanentFlags { flags, any } => {
                let flags = flags.try_copy(alloc)?;
                Ok(Response::PermanentFlags { flags, any: *any })
            }
            Response::Exists(count) => Ok(Response::Exists(*count)),
            Response::Expunge(number) => Ok(Response::Expunge(*number)),
            Response::Vanished { earlier, uids } => {
                let uids = uids.try_copy(alloc)?;
                Ok(Response::Vanished {
                    earlier: *earlier,
                    uids,
                })
            }
            Response::Closed => Ok(Response::Closed),
            Response::UidValidity(validity) => Ok(Response::UidValidity(*validity)),
            Response::UidNext(uid) => Ok(Response::UidNext(*uid)),
            Response::HighestModSeq(mod_seq) => Ok(Response::HighestModSeq(*mod_seq)),
            Response::Moved(uids) => Ok(Response::Moved(uids.try_copy(alloc)?)),
            Response::Fetch { number, items } => {
                let items = items.try_copy(alloc)?;
                Ok(Response::Fetch {
                    number: *number,
                    items,
                })
            }
            Response::Search { tag, uid, results } => {
                let (tag, results) = copy_two(tag, results, alloc)?;
                Ok(Response::Search {
                    tag,
                    uid: *uid,
                    results,
                })
            }
        }
    }
}

impl TryCopy for Code {
    fn try_copy(&self, alloc: Global) -> Result<Code, AllocError> {
        match self {
            Code::ReadWrite => Ok(Code::ReadWrite),
            Code::ReadOnly => Ok(Code::ReadOnly),
            Code::AppendUid { validity, uid } => Ok(Code::AppendUid {
                validity: *validity,
                uid: *uid,
            }),
            Code::CopyUid(uids) => Ok(Code::CopyUid(uids.try_copy(alloc)?)),
            Code::HighestModSeq(mod_seq) => Ok(Code::HighestModSeq(*mod_seq)),
            Code::Modified(numbers) => Ok(Code::Modified(numbers.try_copy(alloc)?)),
        }
    }
}
