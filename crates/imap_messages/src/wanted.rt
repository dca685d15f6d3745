//! What FETCH wants of each message, and what is sent of it.

ghost use Rattle.std.specs.Prelude.{◌≡◌, IfOk, OnOk};
ghost use Rattle.imap_mailbox.specs.Lent.{row_shown};
ghost use Rattle.imap_print.specs.Lines.{IsPrintable};
ghost use Rattle.imap_messages.specs.Fetched as specs;

use crate::body_sections::{add_section, fetched_sections};
use imap_mailbox::Row;
use imap_print::{FetchedItems, FlagSet, Response, fetch_is_printable};
use imap_query::{BodySection, FetchItem};
use imap_targets::flag_set;
use std::alloc::{AllocError, Global};
use std::marker::Model;

/// The items and sections that are sent of each message, each once (RFC 9051, section 6.4.5).
#[derive(Drop)]
pub(crate) struct Wanted {
    uid: bool,
    flags: bool,
    internal_date: bool,
    size: bool,
    mod_seq: bool,
    sections: Vec<BodySection>,
}

impl Model for Wanted {
    ghost use Rattle.imap_messages.specs.Fetched as specs;

    ghost Value = { specs.Wanted };

    ghost coded = { specs.wanted_code };

    ghost view = { λ w. record {
      uid = w.uid;
      flags = w.flags;
      internal_date = w.internal_date;
      size = w.size;
      mod_seq = w.mod_seq;
      sections = w.sections.items;
    } };
}

impl Wanted {
    /// Returns what the items ask for. The UID is wanted by UID FETCH, and the mod-sequence by a session that
    /// enabled CONDSTORE, in any case.
    pub(crate) fn of_items(
        alloc: Global,
        by_uid: bool,
        condstore: bool,
        items: &[FetchItem],
    ) -> Result<Wanted, AllocError>
        ensures { IfOk result (λ wanted. wanted ≡ specs.wanted_of by_uid condstore items.now) }
    {
        let mut wanted = Wanted {
            uid: by_uid,
            flags: false,
            internal_date: false,
            size: false,
            mod_seq: condstore,
            sections: Vec::new(alloc),
        };
        for item in items {
            wanted.add(alloc, item)?;
        }
        Ok(wanted)
    }

    fn add(&mut self, alloc: Global, item: &FetchItem) -> Result<(), AllocError>
        ensures { OnOk result (self.new ≡ specs.with_item self.old item.now) }
    {
        match item {
            FetchItem::Uid => self.uid = true,
            FetchItem::Flags => self.flags = true,
            FetchItem::InternalDate => self.internal_date = true,
            FetchItem::Rfc822Size => self.size = true,
            FetchItem::ModSeq => self.mod_seq = true,
            FetchItem::Section(body) => add_section(alloc, &mut self.sections, body)?,
            FetchItem::Unserved => {}
        }
        Ok(())
    }

    /// Whether FLAGS is wanted of each message.
    pub(crate) fn has_flags(&self) -> bool
        ensures { result ≡ self.now.flags }
    {
        self.flags
    }

    /// Returns the line of a message, of which the command has set `\Seen` or not (RFC 9051, section 7.5.2).
    pub(crate) fn line(
        &self,
        alloc: Global,
        set: bool,
        number: u32,
        row: &Row<'_>,
    ) -> Result<Response, AllocError>
        ensures line { let meant = specs.fetch_line self.now set number (row_shown row.now) in
            IfOk result (λ line. line ≡ meant) }
        ensures printable { IfOk result IsPrintable }
    {
        let items = self.fetched_items(alloc, set, row)?;
        fetch_is_printable(number, &items);
        Ok(Response::Fetch { number, items })
    }

    fn fetched_items(
        &self,
        alloc: Global,
        set: bool,
        row: &Row<'_>,
    ) -> Result<FetchedItems, AllocError>
        ensures { IfOk result (λ items. items ≡ specs.fetched_items self.now set (row_shown row.now)) }
    {
        let flags = flags_if(self.flags || set, alloc, row)?;
        let sections = fetched_sections(alloc, row.octets, self.sections.as_slice())?;
        Ok(FetchedItems {
            uid: if self.uid { Some(row.uid) } else { None },
            flags,
            internal_date: if self.internal_date {
                Some(row.date)
            } else {
                None
            },
            size: size_if(self.size, row),
            mod_seq: if self.mod_seq { Some(row.number) } else { None },
            sections,
        })
    }
}

fn flags_if(wanted: bool, alloc: Global, row: &Row<'_>) -> Result<Option<FlagSet>, AllocError>
    ensures { let set = specs.flags_shown (row_shown row.now) in
        IfOk result (λ flags. flags ≡ specs.if_wanted wanted set) }
{
    if wanted {
        Ok(Some(flag_set(alloc, row.flags, row.seen)?))
    } else {
        Ok(None)
    }
}

fn size_if(wanted: bool, row: &Row<'_>) -> Option<u64>
    ensures { result ≡ specs.if_wanted wanted (specs.size_shown (row_shown row.now)) }
{
    if wanted {
        Some(row.octets.as_slice().len() as u64)
    } else {
        None
    }
}
