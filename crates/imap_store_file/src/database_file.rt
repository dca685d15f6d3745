//! A database's file, read by itself.
//!
//! `sqlite` opens a database with its log alone, and reads all of it. What a file says without its log stands on a few
//! pages (SQLite's file format, sections 1.3 and 1.6).

use sqlite_format::cell::payload_of;
use sqlite_format::{Node, Tree};
use sqlite_record::fields::decode_into;
use sqlite_value::row::Row;
use std::alloc::{AllocError, Global};
use std::fs::File;
use std::io::{self, ErrorKind};
use std::os::unix::fs::FileExt;

/// How the file of a database begins.
const MAGIC: &[u8] = b"SQLite format 3\0";

/// The octets of the file's header, after which the first page begins.
const HEADER: usize = 100;

/// How many pages of a table are read at most. Those that are asked for have one or two.
const MAX_PAGES: u32 = 256;

/// The root of the table that lists all others.
pub(crate) const SCHEMA_ROOT: u32 = 1;

/// The file of a database.
#[derive(Drop)]
pub(crate) struct DatabaseFile {
    file: File,
    /// The octets of a page, and how many of them the file's tables use.
    page: usize,
    usable: usize,
}

impl DatabaseFile {
    /// Reads the header. Returns `None` if the file has none.
    pub(crate) fn read(file: File) -> io::Result<Option<DatabaseFile>> {
        let mut header = [0u8; HEADER];
        if !is_filled(&file, 0, &mut header)? || !header.starts_with(MAGIC) {
            return Ok(None);
        }
        let page = match u16::from_be_bytes([header[16], header[17]]) {
            1 => 65_536,
            size => size as usize,
        };
        let usable = page.saturating_sub(header[20] as usize);
        let is_size = page.is_power_of_two() && usable >= 480;
        Ok(is_size.then_some(DatabaseFile { file, page, usable }))
    }

    /// Returns the rows of the table whose root is this page, in no order, without those that overflow their page. Fails
    /// with `InvalidData` if a page is none of a table.
    pub(crate) fn rows(&self, alloc: Global, root: u32) -> io::Result<Vec<Row>> {
        let mut rows = Vec::new(alloc);
        let mut left = Vec::new(alloc);
        left.push(root)?;
        for _ in 0..MAX_PAGES {
            let Some(number) = left.pop() else {
                return Ok(rows);
            };
            let page = self.page(alloc, number)?;
            self.read_page(alloc, number, page.as_slice(), &mut rows, &mut left)?;
        }
        Err(io::Error::from(ErrorKind::InvalidData))
    }

    /// Returns the octets of a page, counted from 1.
    fn page(&self, alloc: Global, number: u32) -> io::Result<Vec<u8>> {
        let mut page = Vec::new(alloc);
        page.resize(self.page, 0u8)?;
        let at = u64::from(number.saturating_sub(1)).saturating_mul(self.page as u64);
        if is_filled(&self.file, at, page.as_mut_slice())? {
            Ok(page)
        } else {
            Err(io::Error::from(ErrorKind::InvalidData))
        }
    }

    /// Appends the rows of a page to `rows`, and the pages below it to `left`.
    fn read_page(
        &self,
        alloc: Global,
        number: u32,
        page: &[u8],
        rows: &mut Vec<Row>,
        left: &mut Vec<u32>,
    ) -> io::Result<()> {
        let header = if number == SCHEMA_ROOT { HEADER } else { 0 };
        let invalid = Err(io::Error::from(ErrorKind::InvalidData));
        let Some(octets) = page.get(..self.usable) else {
            return invalid;
        };
        if octets.len() < 480 || octets.len() > 65_536 {
            return invalid;
        }
        match Node::parse(octets, header) {
            Some(node) if node.kind.tree == Tree::Table && node.kind.leaf => {
                Ok(push_rows(alloc, &node, rows)?)
            }
            Some(node) if node.kind.tree == Tree::Table => Ok(push_children(&node, left)?),
            _ => invalid,
        }
    }
}

/// Appends the rows of a leaf.
fn push_rows(alloc: Global, node: &Node<'_>, rows: &mut Vec<Row>) -> Result<(), AllocError> {
    let usable = node.bytes.len();
    for place in 0..node.count {
        let payload = match node.body(place) {
            Some(body) => payload_of(Tree::Table, usable, body),
            None => None,
        };
        if let Some(payload) = payload {
            if payload.spilled == 0 {
                let mut row = Row::new(alloc);
                decode_into(payload.local, 0, &mut row)?;
                rows.push(row)?;
            }
        }
    }
    Ok(())
}

/// Appends the pages below an inner page.
fn push_children(node: &Node<'_>, left: &mut Vec<u32>) -> Result<(), AllocError> {
    for place in 0..node.count {
        if let Some(child) = node.child(place) {
            left.push(child)?;
        }
    }
    left.push(node.right())?;
    Ok(())
}

/// Reads until `buf` is full. Returns whether the file has so many octets from `at` on.
fn is_filled(file: &File, at: u64, buf: &mut [u8]) -> io::Result<bool> {
    let mut count: usize = 0;
    for _ in 0..u64::MAX {
        let Some(rest) = buf.get_mut(count..) else {
            break;
        };
        if rest.is_empty() {
            return Ok(true);
        }
        let more = file.read_at(rest, at.saturating_add(count as u64))?;
        if more == 0 {
            break;
        }
        count = count.saturating_add(more);
    }
    Ok(false)
}
