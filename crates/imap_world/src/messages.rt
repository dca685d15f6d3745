//! Messages of mailboxes.

ghost use Rattle.std.specs.Prelude.{◌≡◌, ℕ, List, false, OnOk, Some};
ghost use Rattle.std.specs.FinMap as map;
ghost use Rattle.std.specs.Result.{result_err};
ghost use Rattle.imap_batch.specs.Batch.{write_for};
ghost use Rattle.imap_batch.specs.Held.{summary_in};
ghost use Rattle.imap_world.specs.Changing.{Answers, AnswersOrMemory};
ghost use Rattle.imap_world.specs.Mailbox.{plain_all};
ghost use Rattle.imap_world.specs.Messages.{is_same_name, messages_changed, messages_written, one_part};
ghost use Rattle.imap_world.specs.Messages.{part_in, part_of, refusal, two_parts, with_part, with_parts};
ghost use Rattle.imap_world.specs.Ready.{HasEntryRoom, HasFirstRoom, HasMessageRoom, HasPartRoom};
ghost use Rattle.imap_world.specs.Ready.{HasPartsRoom, MayChange, MayChangeAt, MayChangeParts};
ghost use Rattle.imap_world.specs.Stored.{world_of};

use crate::change::{Change, Write};
use crate::error::WorldError;
use crate::mailbox_entry::MailboxEntry;
use crate::named_batch::{NamedBatch, NamedWrite};
use crate::world::World;
use imap_batch::{BatchError, BatchWrite, Mailbox, refusal, resolve};
use imap_name_map::NameMap;
use imap_names::{Name, NameRef};
use std::alloc::{AllocError, Global};

impl World {
    /// Finds what is written to the messages of a mailbox, and of another one.
    pub(crate) fn resolve_messages(
        &self,
        alloc: Global,
        part: &NamedBatch,
        other: &Option<NamedBatch>,
    ) -> Result<Change, WorldError>
        ensures { let mailboxes = (world_of self.now).mailboxes in
            Answers result (messages_written mailboxes part.now other.now) }
    {
        match other {
            Some(other) => self.resolve_two(alloc, part, other),
            None => self.resolve_one(alloc, part),
        }
    }

    /// Finds what is written to the messages of one mailbox.
    fn resolve_one(&self, alloc: Global, part: &NamedBatch) -> Result<Change, WorldError>
        ensures { Answers result (one_part (part_in (world_of self.now).mailboxes part.now)) }
    {
        let write = self.find_part(alloc, part)?;
        Ok(Change::of(alloc, Write::Messages(write, None))?)
    }

    /// Finds what is written to the messages of two mailboxes. All refusals are found before memory is taken.
    fn resolve_two(
        &self,
        alloc: Global,
        part: &NamedBatch,
        other: &NamedBatch,
    ) -> Result<Change, WorldError>
        ensures { let mailboxes = (world_of self.now).mailboxes in
            Answers result (messages_written mailboxes part.now (Some other.now)) }
    {
        if is_same_name(&other.name, &part.name) {
            return Err(WorldError::Cannot);
        }
        match self.refusal_of_two(part, other) {
            Some(error) => Err(error),
            None => self.find_two(alloc, part, other),
        }
    }

    /// The first refusal of two parts.
    fn refusal_of_two(&self, part: &NamedBatch, other: &NamedBatch) -> Option<WorldError>
        ensures { let mailboxes = (world_of self.now).mailboxes in
            result ≡ result_err (two_parts (part_in mailboxes part.now) (part_in mailboxes other.now)) }
    {
        match self.refusal(part) {
            Some(error) => Some(error),
            None => self.refusal(other),
        }
    }

    /// Why a part is refused, if not for want of memory.
    fn refusal(&self, part: &NamedBatch) -> Option<WorldError>
        ensures { result ≡ result_err (part_in (world_of self.now).mailboxes part.now) }
    {
        match self.mailbox(&part.name.as_ref()) {
            Some(mailbox) => refusal_in(mailbox.messages.as_ref(), part),
            None => Some(WorldError::NoSuch),
        }
    }

    fn find_two(
        &self,
        alloc: Global,
        part: &NamedBatch,
        other: &NamedBatch,
    ) -> Result<Change, WorldError>
        ensures { let mailboxes = (world_of self.now).mailboxes in
            AnswersOrMemory result (two_parts (part_in mailboxes part.now) (part_in mailboxes other.now)) }
    {
        let first = self.find_part(alloc, part)?;
        let second = self.find_part(alloc, other)?;
        Ok(Change::of(alloc, Write::Messages(first, Some(second)))?)
    }

    fn find_part(&self, alloc: Global, part: &NamedBatch) -> Result<NamedWrite, WorldError>
        ensures { Answers result (part_in (world_of self.now).mailboxes part.now) }
    {
        match self.mailbox(&part.name.as_ref()) {
            Some(mailbox) => find_in(alloc, mailbox.messages.as_ref(), part),
            None => Err(WorldError::NoSuch),
        }
    }
}

/// Whether both are the same name.
pub fn is_same_name(name: &Name, other: &Name) -> bool
    ensures { result ≡ is_same_name name.now other.now }
{
    name.is_same(other)
}

/// The same refusal of a change of the world.
fn world_error(error: BatchError) -> WorldError
    ensures { result ≡ refusal error }
{
    match error {
        BatchError::Limit => WorldError::Limit,
        BatchError::NoSuchUid => WorldError::NoSuch,
        BatchError::Memory => WorldError::Memory,
    }
}

fn refusal_in(messages: &Mailbox, part: &NamedBatch) -> Option<WorldError>
    ensures { let found = write_for part.now.batch (summary_in messages.now) in
        result ≡ result_err (part_of part.now.name found) }
{
    match refusal(messages, &part.batch) {
        Some(error) => Some(world_error(error)),
        None => None,
    }
}

fn find_in(alloc: Global, messages: &Mailbox, part: &NamedBatch) -> Result<NamedWrite, WorldError>
    ensures { let found = write_for part.now.batch (summary_in messages.now) in
        Answers result (part_of part.now.name found) }
{
    match resolve(alloc, messages, &part.batch) {
        Ok(write) => Ok(NamedWrite {
            name: part.name.try_copy()?,
            write,
        }),
        Err(error) => Err(world_error(error)),
    }
}

/// Makes room for what is written to messages, if that is the first of the writes.
pub(crate) fn make_message_room(
    mailboxes: &mut NameMap<MailboxEntry>,
    alloc: Global,
    writes: &[Write],
) -> Result<(), AllocError>
    ensures contents { plain_all mailboxes.new.map ≡ plain_all mailboxes.old.map }
    ensures spare { mailboxes.new.spare ≡ mailboxes.old.spare }
    ensures ok { OnOk result (HasFirstRoom mailboxes.new.map writes.now) }
{
    match writes.split_first() {
        Some((write, _)) => make_room_for_write(mailboxes, alloc, write),
        None => Ok(()),
    }
}

fn make_room_for_write(
    mailboxes: &mut NameMap<MailboxEntry>,
    alloc: Global,
    write: &Write,
) -> Result<(), AllocError>
    ensures contents { plain_all mailboxes.new.map ≡ plain_all mailboxes.old.map }
    ensures spare { mailboxes.new.spare ≡ mailboxes.old.spare }
    ensures ok { OnOk result (HasMessageRoom mailboxes.new.map write.now) }
{
    match write {
        Write::Messages(part, other) => make_room_for_parts(mailboxes, alloc, part, other),
        Write::Put(_)
        | Write::SetAcl(_, _)
        | Write::Remove(_)
        | Write::Move(_, _, _)
        | Write::Subscribe(_, _)
        | Write::Unsubscribe(_, _) => Ok(()),
    }
}

/// Makes room in one mailbox, and in another one.
fn make_room_for_parts(
    mailboxes: &mut NameMap<MailboxEntry>,
    alloc: Global,
    part: &NamedWrite,
    other: &Option<NamedWrite>,
) -> Result<(), AllocError>
    ensures contents { plain_all mailboxes.new.map ≡ plain_all mailboxes.old.map }
    ensures spare { mailboxes.new.spare ≡ mailboxes.old.spare }
    ensures ok { OnOk result (HasPartsRoom mailboxes.new.map part.now other.now) }
{
    make_room_in(mailboxes, alloc, &part.name.as_ref(), &part.write)?;
    match other {
        Some(other) => make_room_in(mailboxes, alloc, &other.name.as_ref(), &other.write),
        None => Ok(()),
    }
}

fn make_room_in(
    mailboxes: &mut NameMap<MailboxEntry>,
    alloc: Global,
    name: &NameRef<'_>,
    write: &BatchWrite,
) -> Result<(), AllocError>
    ensures contents { plain_all mailboxes.new.map ≡ plain_all mailboxes.old.map }
    ensures spare { mailboxes.new.spare ≡ mailboxes.old.spare }
    ensures others { (q : List (List ℕ)) → is_same_name q name.now ≡ false
        → map.get mailboxes.new.map q ≡ map.get mailboxes.old.map q }
    ensures ok { OnOk result (HasEntryRoom write.now (map.get mailboxes.new.map name.now)) }
{
    match mailboxes.get_mut(name) {
        Some(entry) => entry.make_room(alloc, write),
        None => Ok(()),
    }
}

/// Writes to the messages of one mailbox, and of another one.
pub(crate) fn write_parts(
    mailboxes: &mut NameMap<MailboxEntry>,
    part: NamedWrite,
    other: Option<NamedWrite>,
)
    requires room { HasPartsRoom mailboxes.old.map part other }
    requires may { MayChangeParts (plain_all mailboxes.old.map) part other }
    ensures mailboxes { plain_all mailboxes.new.map ≡ with_parts (plain_all mailboxes.old.map) part other }
    ensures spare { mailboxes.new.spare ≡ mailboxes.old.spare }
{
    write_part(mailboxes, part);
    match other {
        Some(other) => write_part(mailboxes, other),
        None => {}
    }
}

/// Writes to the messages of a mailbox that is there.
fn write_part(mailboxes: &mut NameMap<MailboxEntry>, part: NamedWrite)
    requires room { HasPartRoom mailboxes.old.map part }
    requires may { MayChange (plain_all mailboxes.old.map) part }
    ensures mailboxes { plain_all mailboxes.new.map ≡ with_part (plain_all mailboxes.old.map) part }
    ensures others { (q : List (List ℕ)) → is_same_name q part.name ≡ false
        → map.get mailboxes.new.map q ≡ map.get mailboxes.old.map q }
    ensures spare { mailboxes.new.spare ≡ mailboxes.old.spare }
{
    let NamedWrite { name, write } = part;
    write_to(mailboxes, &name.as_ref(), write);
}

fn write_to(mailboxes: &mut NameMap<MailboxEntry>, name: &NameRef<'_>, write: BatchWrite)
    requires room { HasEntryRoom write (map.get mailboxes.old.map name.now) }
    requires may { MayChangeAt write (map.get (plain_all mailboxes.old.map) name.now) }
    ensures mailboxes { let there = map.get (plain_all mailboxes.old.map) name.now in
        plain_all mailboxes.new.map
        ≡ messages_changed write.batch (plain_all mailboxes.old.map) name.now there }
    ensures others { (q : List (List ℕ)) → is_same_name q name.now ≡ false
        → map.get mailboxes.new.map q ≡ map.get mailboxes.old.map q }
    ensures spare { mailboxes.new.spare ≡ mailboxes.old.spare }
{
    match mailboxes.get_mut(name) {
        Some(entry) => entry.write(write),
        None => drop(write),
    }
}
