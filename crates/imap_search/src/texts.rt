//! Where a key looks for its text (RFC 9051, section 6.4.4).

ghost use Rattle.std.specs.Prelude.{◌≡◌, IfOk};
ghost use Rattle.imap_search.specs.Finds as specs;

use crate::message_texts::MessageTexts;
use crate::needles::Needles;
use imap_query::SearchIn;
use std::alloc::{AllocError, Global};

/// Whether the text stands in this part of the message.
pub(crate) fn has_text_in(
    alloc: Global,
    needles: &mut Needles,
    place: SearchIn,
    wanted: &[u8],
    texts: &mut MessageTexts<'_>,
) -> Result<bool, AllocError>
    ensures octets { texts.new ≡ texts.old }
    ensures found { IfOk result (λ found. found ≡ specs.has_text_in place wanted.now texts.old) }
{
    match place {
        SearchIn::Bcc => texts.has_in_field(alloc, needles, b"Bcc", wanted),
        SearchIn::Body => texts.has_in_body(alloc, needles, wanted),
        SearchIn::Cc => texts.has_in_field(alloc, needles, b"Cc", wanted),
        SearchIn::From => texts.has_in_field(alloc, needles, b"From", wanted),
        SearchIn::Subject => texts.has_in_field(alloc, needles, b"Subject", wanted),
        SearchIn::Text => texts.has(alloc, needles, wanted),
        SearchIn::To => texts.has_in_field(alloc, needles, b"To", wanted),
    }
}
