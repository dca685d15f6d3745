//! Waking workers after changes.

use crate::idle_waker::IdleWakers;
use imap_host::{ChangeCount, Gate, SessionId};
use std::sync::Wait;
use std::sync::atomic::{AtomicU64, Ordering};

/// A gate that holds no request back, and wakes the workers after a request that changed something.
#[derive(Drop)]
pub(crate) struct NotifyOnChange<'a, R: Wait> {
    rt: &'a R,
    changes: &'a ChangeCount,
    wakers: &'a IdleWakers,
    /// How many changes there were when the workers were woken last.
    notified: AtomicU64,
}

impl<'a, R: Wait> NotifyOnChange<'a, R> {
    /// Wakes the workers of `wakers` when `changes` counts more than now.
    pub(crate) fn new(
        rt: &'a R,
        changes: &'a ChangeCount,
        wakers: &'a IdleWakers,
    ) -> NotifyOnChange<'a, R> {
        NotifyOnChange {
            rt,
            changes,
            wakers,
            notified: AtomicU64::new(changes.get()),
        }
    }
}

impl<'a, R: Wait> Gate for NotifyOnChange<'a, R> {
    fn open(&self, _who: &SessionId, _call: u64) -> bool {
        true
    }

    fn answered(&self, _who: &SessionId, _call: u64) {
        let changes = self.changes.get();
        if self.notified.swap(changes, Ordering::SeqCst) != changes {
            self.wakers.wake_all(self.rt);
        }
    }
}
