//! The mailboxes of a script's head.
//!
//! Mailboxes are kept in the order of their lines and found by a hash map; at the head's end they are
//! placed in the order of their names, which moves nothing.

use crate::line::LineError;
use crate::owned::with_made;
use imap_names::{Name, UserName, show_name};
use imap_rights::Acl;
use imap_values::beside;
use imap_world::World;
use std::alloc::Global;
use std::collections::HashMap;

/// The mailboxes that a head makes, each with its access control list.
#[derive(Drop)]
pub(crate) struct Mailboxes {
    /// The names that were made, in the order of their lines.
    made: Vec<(Name, Acl)>,
    /// The index of each in `made`, by the text that shows its name to the administrator.
    indexes: HashMap<String, usize>,
    /// The index of the mailbox that the last `mailbox` line named.
    chosen: Option<usize>,
}

impl Mailboxes {
    pub(crate) fn new(alloc: Global) -> Mailboxes {
        Mailboxes {
            made: Vec::new(alloc),
            indexes: HashMap::new(alloc),
            chosen: None,
        }
    }

    /// Chooses a mailbox. Makes it first if it isn't there. Fails with `Bad` if its superior isn't there either.
    pub(crate) fn choose(
        &mut self,
        alloc: Global,
        administrator: &UserName,
        name: Name,
    ) -> Result<(), LineError> {
        let label = show_name(alloc, administrator, &name);
        let (label, name) = beside(label, name)?;
        match self.indexes.get(label.as_str()) {
            Some(index) => {
                self.chosen = Some(*index);
                drop(label);
                drop(name);
                Ok(())
            }
            None => self.make(alloc, name, label),
        }
    }

    /// Makes and chooses a mailbox. `label` shows `name`.
    fn make(&mut self, alloc: Global, name: Name, label: String) -> Result<(), LineError> {
        if !self.has_superior(&name, label.as_str()) {
            drop(label);
            drop(name);
            return Err(LineError::Bad);
        }
        let index = self.made.len();
        self.made.push((name, Acl::new(alloc)))?;
        self.indexes.insert(label, index)?;
        self.chosen = Some(index);
        Ok(())
    }

    /// Whether the superior of `name` is made or the root of a tree. `label` shows `name`.
    fn has_superior(&self, name: &Name, label: &str) -> bool {
        if name.as_ref().superior().is_none() {
            return true;
        }
        match label.rsplit_once('/') {
            Some((superior, _)) => self.indexes.contains_key(superior),
            None => false,
        }
    }

    /// The access control list of the chosen mailbox. Fails with `Bad` if none is chosen.
    pub(crate) fn chosen_list(&mut self) -> Result<&mut Acl, LineError> {
        let index = self.chosen.ok_or(LineError::Bad)?;
        match self.made.get_mut(index) {
            Some((_, acl)) => Ok(acl),
            None => Err(LineError::Bad),
        }
    }

    /// Returns the world with these mailboxes. They are placed in the order of their names, so that none moves the
    /// others.
    pub(crate) fn into_world(self, alloc: Global) -> Result<World, LineError> {
        let Mailboxes {
            made,
            indexes,
            chosen: _,
        } = self;
        drop(indexes);
        let mut world = World::new(alloc);
        let placed = place_all(alloc, &mut world, made);
        let (world, ()) = with_made(world, placed)?;
        Ok(world)
    }
}

/// Places the mailboxes in the order of their names.
fn place_all(
    alloc: Global,
    world: &mut World,
    mut made: Vec<(Name, Acl)>,
) -> Result<(), LineError> {
    made.sort_by(|one, other| one.0.as_ref().compare(&other.0.as_ref()))?;
    for (name, acl) in made {
        world.place(alloc, name, acl)?;
    }
    Ok(())
}
