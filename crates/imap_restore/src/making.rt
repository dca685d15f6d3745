//! A world is made of what a store keeps of it.

ghost use Rattle.std.specs.Prelude.{◌≡◌, ◌≢◌, [], Err, IfOk, None};
ghost use Rattle.imap_restore.specs.Holding.{HasLists, IsMadeOf};
ghost use Rattle.imap_world.specs.Kept.{AreKept, IsSound};
ghost use Rattle.imap_world.specs.Stored.{world_of};
ghost use Rattle.imap_world.specs.World.{World as Mailboxes};

use imap_mailbox::PartsError;
use imap_names::Name;
use imap_world::{MailboxEntry, World, WorldParts};
use std::alloc::{AllocError, Global};

/// The name of a mailbox, or one under which a UIDVALIDITY was used. `None` if there is neither.
fn some_name(parts: &WorldParts) -> Result<Option<Name>, AllocError>
    ensures { IfOk result (λ name. name ≡ None
        → (parts.now.mailboxes.items ≡ []) × (parts.now.epochs.items ≡ [])) }
{
    if let Some(row) = parts.mailboxes.first() {
        let name = row.name.try_copy()?;
        return Ok(Some(name));
    }
    match parts.epochs.first() {
        Some(epoch) => {
            let name = epoch.0.try_copy()?;
            Ok(Some(name))
        }
        None => Ok(None),
    }
}

/// Hands on what the type of a world keeps.
fn hand_on(world: &World, name: &Option<Name>)
    ensures sound { name.now ≢ None → IsSound (world_of world.now) }
    ensures kept { name.now ≢ None → AreKept (world_of world.now).mailboxes }
{
    if let Some(name) = name {
        let _ = world.mailbox(&name.as_ref());
    }
}

/// Hands on what the types of access control lists keep.
fn hand_on_lists(entries: &[(Name, MailboxEntry)])
    ensures { HasLists entries.now }
{
    'entries: for entry in entries {
        let _ = entry.1.acl.len();
    }
}

/// Makes the world for which the parts stand. Fails with `Bad` if they stand for none.
pub(crate) fn make_world(alloc: Global, parts: WorldParts) -> Result<World, PartsError>
    ensures ok { IfOk result (λ world. IsMadeOf parts (world_of world)) }
    ensures bad { result ≡ Err PartsError.Bad → (world : Mailboxes) → IsMadeOf parts world → ⊥ }
{
    let name = some_name(&parts)?;
    let world = match World::from_parts(alloc, parts) {
        Ok(world) => world,
        Err(error) => return Err(error),
    };
    hand_on(&world, &name);
    hand_on_lists(world.mailboxes().entries());
    Ok(world)
}
