//! The messages that were expunged, as a user has them.

ghost use Rattle.std.specs.Prelude.{◌≡◌, ◌<◌, ◌≤◌, length, drop, slice_index_or};
ghost use Rattle.imap_modseq.specs.Numbers.{max_events};
ghost use Rattle.imap_mailbox.specs.Own.{no_own};
ghost use Rattle.imap_mailbox.specs.Summary.{gone_in};
ghost use Rattle.imap_mailbox.specs.Lent.{gone_shown, gone_after_number, NeverFall};

use crate::message::GoneMessage;
use crate::own::OwnSeen;
use imap_modseq::number_after;
use std::marker::Model;

/// A message that was expunged, as a user has it.
#[derive(Drop)]
pub struct GoneUid {
    pub uid: u32,
    /// The mod-sequence of the event by which the message went.
    pub number: u64,
}

/// The messages that were expunged, in the order in which they went. They are lent from the mailbox.
#[derive(Drop)]
pub struct GoneUids<'a> {
    pub(crate) gone: &'a Vec<GoneMessage>,

    // How many of them are left out.
    pub(crate) first: usize,
    pub(crate) own: Option<&'a OwnSeen>,
}

impl<'a> Model for GoneUids<'a> {
    ghost use Rattle.std.specs.Prelude.{ℕ, List, map, drop};
    ghost use Rattle.std.specs.Coded.{coded_list, coded×, coded_ℕ};
    ghost use Rattle.imap_mailbox.specs.Summary.{gone_in};
    ghost use Rattle.imap_mailbox.specs.Lent.{own_lent, AreGoneLent};

    ghost Value = { List (ℕ × ℕ) };

    ghost coded = { coded_list (coded× coded_ℕ coded_ℕ) };

    ghost view = { λ r. drop r.first (map (gone_in (own_lent r.own)) r.gone.now.items) };

    ghost invariant = { λ r. AreGoneLent r.gone.now.items r.first };
}

impl<'a> GoneUids<'a> {
    /// The number of messages.
    pub fn len(&self) -> usize
        ensures len { result ≡ length self.now }
        ensures order { NeverFall self.now }
    {
        self.gone.len() - self.first
    }

    /// The message at `place`, from 0, in the order in which they went.
    pub fn get(&self, place: usize) -> GoneUid
        requires { place < length self.now }
        ensures { gone_shown result ≡ slice_index_or self.now place (gone_shown result) }
    {
        let message = &self.gone[self.first + place];
        match self.own {
            Some(own) => own_gone(message, own),
            None => plain_gone(message),
        }
    }

    /// Returns those with a number greater than `number`, by a search that halves.
    pub(crate) fn since(&self, number: u64) -> GoneUids<'a>
        ensures { result ≡ gone_after_number number self.now }
    {
        let count = self.count_until(number);
        GoneUids {
            gone: self.gone,
            first: self.first + count,
            own: self.own,
        }
    }

    // How many have a number of at most `number`. They stand in front of the others.
    fn count_until(&self, number: u64) -> usize
        ensures within { result ≤ length self.now }
        ensures others { drop result self.now ≡ gone_after_number number self.now }
    {
        let mut low = 0;
        let mut high = self.len();
        while low < high {
            let middle = low + (high - low) / 2;
            if self.get(middle).number <= number {
                low = middle + 1;
            } else {
                high = middle;
            }
        }
        low
    }
}

fn plain_gone(message: &GoneMessage) -> GoneUid
    requires { message.now.place ≤ max_events }
    ensures { gone_shown result ≡ gone_in no_own message.now }
{
    GoneUid {
        uid: message.uid,
        number: number_after(message.place, 0),
    }
}

fn own_gone(message: &GoneMessage, own: &OwnSeen) -> GoneUid
    requires { message.now.place ≤ max_events }
    ensures { gone_shown result ≡ gone_in own.now.own message.now }
{
    GoneUid {
        uid: message.uid,
        number: number_after(message.place, own.count_before(message.place)),
    }
}
