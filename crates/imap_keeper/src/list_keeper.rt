//! A keeper in memory.

ghost use Rattle.std.specs.Prelude.{◌≡◌};
ghost use Rattle.imap_world.specs.Stored.{world_of};

use crate::error::KeepError;
use crate::keeper::Keeper;
use imap_world::{Change, World};
use std::alloc::Global;
use std::marker::Model;

/// Keeps a world in memory alone. It never refuses, and a crash leaves nothing.
pub struct ListKeeper {
    world: World,
}

// Not derived: a derived one is proved anew in each crate that lets go of one.
impl Drop for ListKeeper {
    fn drop(self) {
        let ListKeeper { world: _ } = self;
    }
}

impl Model for ListKeeper {
    ghost use Rattle.imap_world.specs.Stored.{world_of};
    ghost use Rattle.imap_world.specs.World as specs;

    ghost Value = { specs.World };

    ghost coded = { specs.world_code };

    ghost view = { λ keeper. world_of keeper.world };
}

impl ListKeeper {
    /// Keeps the world.
    pub fn new(world: World) -> ListKeeper
        ensures { result ≡ world_of world }
    {
        ListKeeper { world }
    }
}

impl Keeper for ListKeeper {
    ghost use Rattle.imap_world.specs.World as specs;

    ghost content = { λ keeper world. keeper ≡ world };

    ghost failed = { λ keeper. 0 };

    ghost is_honest = { λ keeper. Unit {0} };

    ghost Image = { specs.World };

    ghost leaves = { λ keeper image. ⊥ };

    ghost stands = { λ image world. image ≡ world };

    fn save(&mut self, alloc: Global, change: &Change) -> Result<(), KeepError> {
        self.world.apply(alloc, change)?;
        Ok(())
    }

    fn load(&mut self, alloc: Global) -> Result<World, KeepError> {
        Ok(self.world.try_copy(alloc)?)
    }

    fn failures(&self) -> u64 {
        0
    }
}
