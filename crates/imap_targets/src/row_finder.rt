//! Messages that are looked up one after another.

ghost use Rattle.std.specs.Prelude.{◌≡◌, ◌<◌, IfNone, IfSome, None, Some, length, option_map, slice_index_or};
ghost use Rattle.imap_mailbox.specs.Lent.{place_in, row_shown, row_uids};
ghost use Rattle.imap_mailbox.specs.Rows as specs;
ghost use Rattle.imap_mailbox.specs.Summary.{AreRising};
ghost use Rattle.imap_targets.specs.MessageNumbers.{is_unchanged, row_with};

use imap_mailbox::{Near, Row, Rows};

/// The index after the message that was found last, where the next one is looked for first. It makes a walk over
/// messages in the order of their UIDs quick. What is found doesn't depend on it.
#[derive(Clone, Copy)]
pub struct RowFinder {
    index: usize,
    near: Near,
}

impl RowFinder {
    /// The finder for the first message.
    pub fn start() -> RowFinder {
        RowFinder {
            index: 0,
            near: Near::start(),
        }
    }

    /// The message with the UID, if it is there.
    pub fn find<'a>(&mut self, rows: &Rows<'a>, uid: u32) -> Option<Row<'a>>
        requires { AreRising (row_uids rows.now) }
        ensures { option_map row_shown result ≡ row_with uid rows.now }
    {
        match self.index_of(rows, uid) {
            Some(index) => Some(self.row_at(rows, index)),
            None => None,
        }
    }

    /// The index of the message with the UID, if it is there.
    pub fn index_of(&mut self, rows: &Rows<'_>, uid: u32) -> Option<usize>
        requires { AreRising (row_uids rows.now) }
        ensures within { IfSome result (λ index. index < length rows.now) }
        ensures there { IfSome result (λ index.
            (row : specs.Row) → row ≡ slice_index_or rows.now index row → row_with uid rows.now ≡ Some row) }
        ensures gone { IfNone result (row_with uid rows.now ≡ None) }
    {
        match index_near(rows, uid, self.index) {
            Some(index) => {
                self.index = index.saturating_add(1);
                Some(index)
            }
            None => None,
        }
    }

    /// The message at the index, quick where messages are taken one after another.
    #[inline(always)]
    pub fn row_at<'a>(&mut self, rows: &Rows<'a>, index: usize) -> Row<'a>
        requires { index < length rows.now }
        ensures { row_shown result ≡ slice_index_or rows.now index (row_shown result) }
    {
        rows.get_near(index, &mut self.near)
    }

    /// Whether the message with the UID is there with a mod-sequence of at most `number`. It takes less than
    /// [`RowFinder::find`].
    pub fn skip_unchanged(&mut self, rows: &Rows<'_>, uid: u32, number: u64) -> bool
        requires { AreRising (row_uids rows.now) }
        ensures { result ≡ is_unchanged number (row_with uid rows.now) }
    {
        match index_near(rows, uid, self.index) {
            Some(index) => {
                if rows.is_above(index, number) {
                    return false;
                }
                self.index = index.saturating_add(1);
                true
            }
            None => false,
        }
    }
}

/// The index of the message with the UID. Looks at `index` first.
fn index_near(rows: &Rows<'_>, uid: u32, index: usize) -> Option<usize>
    requires { AreRising (row_uids rows.now) }
    ensures { result ≡ place_in uid (row_uids rows.now) }
{
    if index < rows.len() && uid == rows.uid(index) {
        return Some(index);
    }
    rows.place_of(uid)
}
