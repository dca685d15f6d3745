//! Wakers of the workers whose sessions idle.

use mio::{Poll, Token, Waker};
use std::alloc::{AllocError, Global};
use std::io;
use std::sync::atomic::{AtomicBool, AtomicU64, Ordering};
use std::sync::{Mutex, Wait};

/// The connection of a worker is ready.
pub(crate) const CONNECTION: Token = Token(0);

/// A worker was woken.
const WOKEN: Token = Token(1);

/// The waker by which a worker is woken while it has a connection.
#[derive(Drop)]
pub struct IdleWaker {
    waker: Mutex<Option<Waker>>,
    is_armed: AtomicBool,
}

impl IdleWaker {
    fn new() -> IdleWaker {
        IdleWaker {
            waker: Mutex::new(None),
            is_armed: AtomicBool::new(false),
        }
    }

    /// Lets a wake end a wait of `poll` from now on.
    pub(crate) fn attach<R: Wait>(&self, rt: &R, poll: &Poll) -> io::Result<()> {
        let waker = Waker::new(poll.registry(), WOKEN)?;
        *self.waker.lock(rt) = Some(waker);
        Ok(())
    }

    /// The worker has no connection any more.
    pub(crate) fn detach<R: Wait>(&self, rt: &R) {
        self.is_armed.store(false, Ordering::SeqCst);
        *self.waker.lock(rt) = None;
    }

    /// Wakes the worker if the waker is armed, and disarms it.
    fn wake<R: Wait>(&self, rt: &R) {
        if self.is_armed.swap(false, Ordering::SeqCst) {
            if let Some(waker) = &*self.waker.lock(rt) {
                // A worker that isn't woken looks again within a second.
                let _woken = waker.wake();
            }
        }
    }
}

/// The wakers of all workers.
#[derive(Drop)]
pub struct IdleWakers {
    wakers: Vec<IdleWaker>,
    /// How many times all were woken.
    count: AtomicU64,
}

impl IdleWakers {
    /// Makes `count` wakers.
    pub fn new(alloc: Global, count: usize) -> Result<IdleWakers, AllocError> {
        let mut wakers = Vec::new(alloc);
        for _ in 0..count {
            wakers.push(IdleWaker::new())?;
        }
        Ok(IdleWakers {
            wakers,
            count: AtomicU64::new(0),
        })
    }

    /// Returns the wakers, one for each worker.
    pub fn as_slice(&self) -> &[IdleWaker] {
        self.wakers.as_slice()
    }

    /// Returns how many times [`wake_all`](IdleWakers::wake_all) was called.
    pub(crate) fn count(&self) -> u64 {
        self.count.load(Ordering::SeqCst)
    }

    /// Wakes each worker whose waker is armed.
    pub fn wake_all<R: Wait>(&self, rt: &R) {
        self.count.fetch_add(1, Ordering::SeqCst);
        for waker in &self.wakers {
            waker.wake(rt);
        }
    }

    /// Arms `waker`. Returns whether all were woken since the count was `seen`.
    pub(crate) fn arm(&self, waker: &IdleWaker, seen: u64) -> bool {
        waker.is_armed.store(true, Ordering::SeqCst);
        self.count() != seen
    }

    /// Disarms `waker`.
    pub(crate) fn disarm(&self, waker: &IdleWaker) {
        waker.is_armed.store(false, Ordering::SeqCst);
    }
}
