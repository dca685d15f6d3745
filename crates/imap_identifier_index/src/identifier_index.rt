//! The index.

ghost use Rattle.std.specs.Prelude.{◌≡◌, ◌||◌, bytes_eq, map as map_list, true, IfOk, IfSome, OnOk, Some, None};
ghost use Rattle.std.specs.FinMap as map;
ghost use Rattle.imap_names.specs.Order.{moved};
ghost use Rattle.imap_identifier_index.specs.Index.{IsIndexOf, IsKept, Lists, moved_lists, with_list};
ghost use Rattle.imap_identifier_index.specs.Index.{IsRun, PushesNames};
ghost use Rattle.imap_identifier_index.specs.Names.{IsPut};
ghost use Rattle.imap_identifier_index.specs.Sets.{IsAdded, set_length};

use crate::names::{copy_names, has_name, move_names, push_named, put_new, take_name};
use crate::numbers::Numbers;
use crate::sets::{add_all, reserve, reserve_all, take, take_from_all};
use imap_names::{Name, NameRef};
use imap_rights::Acl;
use imap_user_map::UserMap;
use std::alloc::{AllocError, Global};
use std::marker::Model;

/// A mailbox that keeps its number.
pub trait Numbered {
    fn number(&self) -> u32;
}

/// For each identifier the mailboxes whose lists have an entry of it, and for the root of each tree the
/// mailboxes in it.
#[derive(Drop)]
pub struct IdentifierIndex {
    // By number. `None` if no mailbox has it.
    names: Vec<Option<Name>>,
    // Numbers that no mailbox has any more.
    free: Vec<u32>,
    sets: UserMap<Numbers>,
    is_whole: bool,
}

impl Model for IdentifierIndex {
    ghost use Rattle.imap_identifier_index.specs.Index.{Index, index_code};

    ghost Value = { Index };

    ghost coded = { index_code };

    ghost view = { λ i. record { names = i.names.items; sets = i.sets.map; is_whole = i.is_whole } };
}

impl IdentifierIndex {
    /// The index of no mailboxes. It takes no memory.
    pub fn new(alloc: Global) -> IdentifierIndex
        ensures { IsIndexOf result (λ name. None) }
    {
        IdentifierIndex {
            names: Vec::new(alloc),
            free: Vec::new(alloc),
            sets: UserMap::new(alloc),
            is_whole: true,
        }
    }

    /// Whether it tells anything.
    pub fn is_whole(&self) -> bool
        ensures { result ≡ self.now.is_whole }
    {
        self.is_whole
    }

    /// Makes room for the numbers of `more` mailboxes that come, and of as many that go.
    pub fn reserve(&mut self, more: usize) -> Result<(), AllocError>
        ensures { IsKept self.old self.new }
    {
        self.names.reserve(more)?;
        self.free.reserve(more)
    }

    /// Makes room for `more` mailboxes with this list.
    pub fn reserve_entries(
        &mut self,
        alloc: Global,
        acl: &Acl,
        more: usize,
    ) -> Result<(), AllocError>
        ensures { IsKept self.old self.new }
    {
        reserve_all(&mut self.sets, alloc, acl.entries(), more)
    }

    /// Makes room for `more` mailboxes in the tree of this root.
    pub fn reserve_in_tree(
        &mut self,
        alloc: Global,
        root: &str,
        more: usize,
    ) -> Result<(), AllocError>
        ensures { IsKept self.old self.new }
    {
        reserve(&mut self.sets, alloc, root, more)
    }

    /// Adds a mailbox, and returns its number.
    pub fn add(&mut self, name: &Name, acl: &Acl) -> u32
        ensures { (lists : Lists) → lists name.now ≡ None → IsIndexOf self.old lists
            → IsIndexOf self.new (with_list lists name.now (Some acl.now)) }
    {
        match self.number_for(name) {
            Some(number) => {
                self.enter(number, name.as_ref().root(), acl);
                number
            }
            None => {
                self.is_whole = false;
                0
            }
        }
    }

    /// Gives a number to a name.
    fn number_for(&mut self, name: &Name) -> Option<u32>
        ensures sets { self.new.sets ≡ self.old.sets }
        ensures whole { self.new.is_whole ≡ self.old.is_whole }
        ensures number { IfSome result (λ number.
            IsPut number None (Some name.now) self.old.names self.new.names) }
    {
        match name.try_copy() {
            Ok(copy) => put_new(&mut self.names, &mut self.free, copy),
            Err(_) => None,
        }
    }

    /// Takes out the mailbox of this number, which has this name and this list.
    pub fn remove(&mut self, number: u32, name: &NameRef<'_>, acl: &Acl)
        ensures { (lists : Lists) → lists name.now ≡ Some acl.now → IsIndexOf self.old lists
            → IsIndexOf self.new (with_list lists name.now None) }
    {
        if !take_name(&mut self.names, number, name) {
            self.is_whole = false;
            return;
        }
        take_from_all(&mut self.sets, acl.entries(), number);
        take(&mut self.sets, name.root(), number);
        free_number(&mut self.free, number);
    }

    /// Gives another list to the mailbox of this number, which has this name and the list `old`.
    pub fn set_list(&mut self, number: u32, name: &NameRef<'_>, old: &Acl, new: &Acl)
        ensures { (lists : Lists) → lists name.now ≡ Some old.now → IsIndexOf self.old lists
            → IsIndexOf self.new (with_list lists name.now (Some new.now)) }
    {
        if !has_name(self.names.as_slice(), number, name) {
            self.is_whole = false;
            return;
        }
        take_from_all(&mut self.sets, old.entries(), number);
        take(&mut self.sets, name.root(), number);
        self.enter(number, name.root(), new);
    }

    /// Adds a number to the sets of a root and of all identifiers of a list.
    fn enter(&mut self, number: u32, root: &str, acl: &Acl)
        ensures names { self.new.names ≡ self.old.names }
        ensures whole { self.new.is_whole ≡ true → self.old.is_whole ≡ true }
        ensures sets { self.new.is_whole ≡ true
            → IsAdded (λ text. map.contains_key acl.now text || bytes_eq text root.now) number
            self.old.sets self.new.sets }
    {
        if !add_all(&mut self.sets, root, acl.entries(), number) {
            self.is_whole = false;
        }
    }

    /// Moves mailboxes from `old` to `new`. `run` are all that are `old` or below it, and `arrivals` begin with the
    /// names that they get, in the same order.
    pub fn rename_run<V: Numbered>(
        &mut self,
        run: &[(Name, V)],
        arrivals: &[(Name, u32)],
        old: &NameRef<'_>,
        new: &NameRef<'_>,
    )
        requires { map_list (λ a. a.0) arrivals.now ≡ map_list (λ e. moved old.now new.now e.0) run.now }
        ensures { (lists : Lists) → IsRun lists old.now new.now (map_list (λ e. e.0) run.now)
            → IsIndexOf self.old lists → IsIndexOf self.new (moved_lists old.now new.now lists) }
    {
        if !move_names(&mut self.names, run, arrivals, old, new) {
            self.is_whole = false;
        }
    }

    /// The length of the set of a text: at least as many mailboxes as the text finds.
    pub fn count(&self, text: &str) -> usize
        ensures { result ≡ set_length (map.get self.now.sets text.now) }
    {
        match self.sets.get(text) {
            Some(numbers) => numbers.as_slice().len(),
            None => 0,
        }
    }

    /// Appends to `names` those of all mailboxes that the text finds: whose lists have an entry of this identifier, or
    /// that lie in the tree of this root.
    pub fn push_names<'a>(&'a self, names: &mut Vec<&'a Name>, text: &str) -> Result<(), AllocError>
        requires { self.now.is_whole ≡ true }
        ensures { (lists : Lists) → IsIndexOf self.now lists → OnOk result
            (PushesNames lists text.now (map_list (λ n. n.now) names.old.items)
            (map_list (λ n. n.now) names.new.items)) }
    {
        match self.sets.get(text) {
            Some(numbers) => push_named(names, self.names.as_slice(), numbers.as_slice()),
            None => Ok(()),
        }
    }

    /// Returns an equal copy.
    pub fn try_copy(&self, alloc: Global) -> Result<IdentifierIndex, AllocError>
        ensures { IfOk result (λ copy. copy ≡ self.now) }
    {
        let names = copy_names(alloc, &self.names)?;
        let mut free = Vec::with_capacity(alloc, self.free.capacity())?;
        free.extend_from_slice(self.free.as_slice())?;
        let sets = self.sets.try_copy(alloc)?;
        Ok(IdentifierIndex {
            names,
            free,
            sets,
            is_whole: self.is_whole,
        })
    }
}

/// Keeps a number that no mailbox has any more, if there is room for it.
fn free_number(free: &mut Vec<u32>, number: u32) {
    if free.len() < free.capacity() {
        free.push_reserved(number);
    }
}
