//! What keeps a world.

ghost use Rattle.std.specs.Prelude.{◌≡◌, ℕ, Err, IfOk, OnErr, OnOk};
ghost use Rattle.imap_keeper.specs.declared.error.KeepError.TheVariants.{Damaged};
ghost use Rattle.imap_keeper.specs.Keeping.{HasBase, LeavesOnly, LeavesOr, OfChanged, failures_after};
ghost use Rattle.imap_world.specs.Stored.{world_of};
ghost use Rattle.imap_world.specs.World.{World as Mailboxes};

use crate::error::KeepError;
use imap_world::{Change, World};
use std::alloc::Global;

/// Keeps a world, and saves each change of it.
///
/// Whether a store gives back what was written can't be seen. What is said of its content holds as long as it
/// does, and as long as the store is open: a fault of a device may shut it.
pub trait Keeper {
    /// It keeps this world.
    ghost content: { Self → Mailboxes → Type 0 };

    /// How often the store refused.
    ghost failed: { Self → ℕ };

    /// The store has given back what was written, so far.
    ghost is_honest: { Self → Type 0 };

    /// What a crash leaves, as a file.
    ghost Image: { Type 0 };

    /// A crash at this moment may leave this.
    ghost leaves: { Self → Image → Type 0 };

    /// The image is what a store of this world leaves.
    ghost stands: { Image → Mailboxes → Type 0 };

    /// Saves what was prepared by the world that is kept, before it is committed there.
    ///
    /// Fails with `Refused` if the store refuses, and with `Memory`. The world that is kept is then as
    /// before, and a crash leaves what it could leave before, or the changed world.
    fn save(&mut self, alloc: Global, change: &Change) -> Result<(), KeepError>
        requires { HasBase (content self.old) change.now }
        ensures ok { OfChanged (content self.old) change.now (λ after. OnOk result (content self.new after)) }
        ensures err { (world : Mailboxes) → content self.old world → OnErr result (content self.new world) }
        ensures failures { failed self.new ≡ failures_after result (failed self.old) }
        ensures undamaged { result ≡ Err Damaged → ⊥ }
        ensures honest { is_honest self.new → is_honest self.old }
        ensures crash { is_honest self.new → OfChanged (content self.old) change.now (λ after.
            LeavesOr (leaves self.old) (leaves self.new) (λ image. stands image after)) }
        ensures alone { is_honest self.new → OfChanged (content self.old) change.now (λ after.
            OnOk result (LeavesOnly (leaves self.new) (λ image. stands image after))) };

    /// Returns the world that is kept. Fails with `Damaged` only if none is.
    fn load(&mut self, alloc: Global) -> Result<World, KeepError>
        ensures found { IfOk result (λ world. content self.new (world_of world)) }
        ensures known { is_honest self.new → (world : Mailboxes) → content self.old world
            → IfOk result (λ found. world_of found ≡ world) }
        ensures damaged { is_honest self.new → (world : Mailboxes) → content self.old world
            → result ≡ Err Damaged → ⊥ }
        ensures unchanged { (world : Mailboxes) → content self.old world → content self.new world }
        ensures failures { failed self.new ≡ failures_after result (failed self.old) }
        ensures honest { is_honest self.new → is_honest self.old }
        ensures crash { is_honest self.new → LeavesOnly (leaves self.new) (leaves self.old) };

    /// How often the store refused. The greatest number that there is stays.
    fn failures(&self) -> u64
        ensures { result ≡ failed self.now };
}
