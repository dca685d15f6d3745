//! The groups of one user.

ghost use Rattle.std.specs.Prelude.{◌≡◌, ◌++◌, map as map_list, string_bytes, IfOk, OnErr, OnOk};
ghost use Rattle.std.specs.FinMap as map;
ghost use Rattle.imap_rights.specs.Groups.{AreIdentifiersOf, group_prefix};

use crate::groups::GROUP_PREFIX;
use imap_user_map::UserMap;
use std::alloc::{AllocError, Global};
use std::marker::Model;

/// The names of the groups that a user is in, and the identifiers that stand for them. Contracts see the set
/// of names, with its room.
#[derive(Drop)]
pub(crate) struct GroupNames {
    names: UserMap<()>,
    identifiers: Vec<String>,
}

impl Model for GroupNames {
    ghost use base.Stored.{coded_unit};
    ghost use Rattle.std.specs.Prelude.{map, string_bytes};
    ghost use Rattle.imap_rights.specs.Groups.{AreIdentifiersOf};
    ghost use Rattle.imap_user_map.specs.Rows.{Rows, rows_code};

    ghost Value = { Rows (Unit {0}) };

    ghost coded = { rows_code coded_unit };

    ghost view = { λ g. g.names };

    ghost invariant = { λ g. AreIdentifiersOf g.names.map (map string_bytes g.identifiers.items) };
}

impl GroupNames {
    /// None.
    pub(crate) fn new(alloc: Global) -> GroupNames
        ensures { result.map ≡ map.empty }
    {
        GroupNames {
            names: UserMap::new(alloc),
            identifiers: Vec::new(alloc),
        }
    }

    /// The set of names.
    pub(crate) fn names(&self) -> &UserMap<()>
        ensures { result.now ≡ self.now }
    {
        &self.names
    }

    /// The identifiers, in no order.
    pub(crate) fn identifiers(&self) -> &[String]
        ensures { AreIdentifiersOf self.now.map (map_list string_bytes result.now) }
    {
        self.identifiers.as_slice()
    }

    /// Adds a name.
    pub(crate) fn add(&mut self, alloc: Global, name: String) -> Result<(), AllocError>
        ensures ok { OnOk result (self.new.map ≡ map.insert self.old.map (string_bytes name) tt) }
        ensures err { OnErr result (self.new.map ≡ self.old.map) }
    {
        let identifier = identifier_of(alloc, name.as_str())?;
        self.names.reserve(1)?;
        self.identifiers.reserve(1)?;
        self.identifiers.push_reserved(identifier);
        self.names.insert_reserved(name, ());
        Ok(())
    }
}

/// The identifier that stands for the members of a group.
fn identifier_of(alloc: Global, name: &str) -> Result<String, AllocError>
    ensures { IfOk result (λ identifier. string_bytes identifier ≡ group_prefix ++ name.now) }
{
    let mut identifier = String::from_str(alloc, GROUP_PREFIX)?;
    identifier.push_str(name)?;
    Ok(identifier)
}
