//! The name that a mailbox is to have (RFC 9051, sections 6.3.4 and 6.3.6).

ghost use Rattle.std.specs.Prelude.{◌≡◌, ◌≢◌, IfOk};
ghost use Rattle.imap_names.specs.declared.error.NameError.TheVariants.{Memory};
ghost use Rattle.imap_tree.specs.NewName as specs;

use imap_answer::CommandContext;
use imap_names::{Name, NameError, read_name};
use imap_print::Refusal;
use std::alloc::AllocError;

/// The name that the octets mean to the user, or why no mailbox can have it.
pub(crate) fn read_new_name(
    context: &CommandContext<'_>,
    text: &[u8],
) -> Result<Result<Name, Refusal>, AllocError>
    ensures { IfOk result (λ read. read ≡ specs.new_name_read context.now.view.user text.now) }
{
    match read_name(context.alloc(), context.view().user(), text) {
        Ok(name) => Ok(Ok(name)),
        Err(NameError::Memory) => Err(AllocError),
        Err(error) => Ok(Err(name_refusal(error))),
    }
}

fn name_refusal(error: NameError) -> Refusal
    ensures { result ≡ specs.name_refusal error }
{
    match error {
        NameError::TooLong | NameError::TooDeep => Refusal::Limit,
        _ => Refusal::Cannot,
    }
}
