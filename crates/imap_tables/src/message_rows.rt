//! Rows of the three tables of messages, as they are read.

ghost use Rattle.imap_tables.specs.Stored.{IsBody, IsHead, IsKeyword, ShowsBody, ShowsHead, ShowsKeyword};

use crate::cells::{four_at, three_at};
use crate::stored::FromRow;
use imap_lex::Octets;
use sqlite::{Error, Row};

/// A message that is there, without its octets and keywords.
#[derive(Drop)]
pub struct StoredHead {
    pub rowid: i64,
    pub mailbox: i64,
    pub uid: u32,
    pub date: String,
    pub flags: u32,
    /// The place of its last shared event.
    pub place: i64,
}

/// The octets of a message.
#[derive(Drop)]
pub struct StoredBody {
    pub rowid: i64,
    pub mailbox: i64,
    pub uid: u32,
    pub octets: Octets,
}

/// A keyword of a message.
#[derive(Drop)]
pub struct StoredKeyword {
    pub rowid: i64,
    pub mailbox: i64,
    pub uid: u32,
    pub word: String,
}

impl FromRow for StoredHead {
    ghost is_of = { IsHead };

    ghost shows = { ShowsHead };

    ghost id = { λ it. it.rowid };

    fn rowid(&self) -> i64 {
        self.rowid
    }

    fn read(row: &Row) -> Result<StoredHead, Error> {
        let (rowid, mailbox, uid) = three_at(row, 6, 0)?;
        let (date, flags, place) = three_at(row, 6, 3)?;
        Ok(StoredHead {
            rowid,
            mailbox,
            uid,
            date,
            flags,
            place,
        })
    }
}

impl FromRow for StoredBody {
    ghost is_of = { IsBody };

    ghost shows = { ShowsBody };

    ghost id = { λ it. it.rowid };

    fn rowid(&self) -> i64 {
        self.rowid
    }

    fn read(row: &Row) -> Result<StoredBody, Error> {
        let (rowid, mailbox, uid, octets) = four_at(row, 4, 0)?;
        Ok(StoredBody {
            rowid,
            mailbox,
            uid,
            octets,
        })
    }
}

impl FromRow for StoredKeyword {
    ghost is_of = { IsKeyword };

    ghost shows = { ShowsKeyword };

    ghost id = { λ it. it.rowid };

    fn rowid(&self) -> i64 {
        self.rowid
    }

    fn read(row: &Row) -> Result<StoredKeyword, Error> {
        let (rowid, mailbox, uid, word) = four_at(row, 4, 0)?;
        Ok(StoredKeyword {
            rowid,
            mailbox,
            uid,
            word,
        })
    }
}
