//! Equality of responses.

use crate::response::{Code, Refusal, Response};
use imap_values::{Same, same_three, same_two};

impl Same for Refusal {
    fn is_same(&self, other: &Refusal) -> bool {
        self == other
    }
}

// One long match, as each arm is a call and nothing else: a function for each variant takes as long to prove.
impl Same for Response {
    fn is_same(&self, other: &Response) -> bool {
        match (self, other) {
            (Response::Greeting, Response::Greeting)
            | (Response::Capability, Response::Capability)
            | (Response::Ready, Response::Ready)
            | (Response::Idling, Response::Idling)
            | (Response::Namespace, Response::Namespace)
            | (Response::ListRoot, Response::ListRoot)
            | (Response::Closed, Response::Closed) => true,
            (Response::Bye(farewell), Response::Bye(other)) => farewell == other,
            (
                Response::Done { tag, code },
                Response::Done {
                    tag: other,
                    code: other_code,
                },
            ) => same_two(tag, other, code, other_code),
            (
                Response::Refused { tag, refusal },
                Response::Refused {
                    tag: other,
                    refusal: other_refusal,
                },
            ) => same_two(tag, other, refusal, other_refusal),
            (Response::Enabled(capabilities), Response::Enabled(other)) => capabilities == other,
            (
                Response::List {
                    attributes,
                    mailbox,
                },
                Response::List {
                    attributes: other_attributes,
                    mailbox: other,
                },
            ) => same_two(attributes, other_attributes, mailbox, other),
            (
                Response::Status { mailbox, items },
                Response::Status {
                    mailbox: other,
                    items: other_items,
                },
            ) => same_two(mailbox, other, items, other_items),
            (
                Response::Acl { mailbox, entries },
                Response::Acl {
                    mailbox: other,
                    entries: other_entries,
                },
            ) => same_two(mailbox, other, entries, other_entries),
            (
                Response::MyRights { mailbox, rights },
                Response::MyRights {
                    mailbox: other,
                    rights: other_rights,
                },
            ) => mailbox.is_same(other) && rights == other_rights,
            (
                Response::ListRights {
                    mailbox,
                    identifier,
                    owner,
                },
                Response::ListRights {
                    mailbox: other,
                    identifier: other_identifier,
                    owner: other_owner,
                },
            ) => same_three(
                mailbox,
                other,
                identifier,
                other_identifier,
                owner,
                other_owner,
            ),
            (Response::Flags { keywords }, Response::Flags { keywords: others }) =>
                keywords.is_same(others),
            (
                Response::PermanentFlags { flags, any },
                Response::PermanentFlags {
                    flags: others,
                    any: other_any,
                },
            ) => same_two(flags, others, any, other_any),
            (Response::Exists(number), Response::Exists(other))
            | (Response::Expunge(number), Response::Expunge(other))
            | (Response::UidValidity(number), Response::UidValidity(other))
            | (Response::UidNext(number), Response::UidNext(other)) => number.is_same(other),
            (Response::HighestModSeq(mod_seq), Response::HighestModSeq(other)) => mod_seq.is_same(
                other,
            ),
            (
                Response::Vanished { earlier, uids },
                Response::Vanished {
                    earlier: other_earlier,
                    uids: others,
                },
            ) => same_two(earlier, other_earlier, uids, others),
            (Response::Moved(uids), Response::Moved(others)) => uids.is_same(others),
            (
                Response::Fetch { number, items },
                Response::Fetch {
                    number: other,
                    items: other_items,
                },
            ) => same_two(number, other, items, other_items),
            (
                Response::Search { tag, uid, results },
                Response::Search {
                    tag: other,
                    uid: other_uid,
                    results: other_results,
                },
            ) => same_three(tag, other, uid, other_uid, results, other_results),
            _ => false,
        }
    }
}

impl Same for Code {
    fn is_same(&self, other: &Code) -> bool {
        match (self, other) {
            (Code::ReadWrite, Code::ReadWrite) | (Code::ReadOnly, Code::ReadOnly) => true,
            (
                Code::AppendUid { validity, uid },
                Code::AppendUid {
                    validity: other,
                    uid: other_uid,
                },
            ) => same_two(validity, other, uid, other_uid),
            (Code::CopyUid(uids), Code::CopyUid(others)) => uids.is_same(others),
            (Code::HighestModSeq(mod_seq), Code::HighestModSeq(other)) => mod_seq.is_same(other),
            (Code::Modified(numbers), Code::Modified(others)) => numbers.is_same(others),
            _ => false,
        }
    }
}
