//! Copies of the arguments of LIST, and their equality.

use crate::commands::list::{ListReturn, Patterns, Selection};
use imap_values::{Same, TryCopy};
use std::alloc::{AllocError, Global};

impl TryCopy for Selection {
    fn try_copy(&self, _alloc: Global) -> Result<Selection, AllocError> {
        Ok(*self)
    }
}

impl Same for Selection {
    fn is_same(&self, other: &Selection) -> bool {
        self == other
    }
}

impl TryCopy for ListReturn {
    fn try_copy(&self, alloc: Global) -> Result<ListReturn, AllocError> {
        match self {
            ListReturn::Subscribed => Ok(ListReturn::Subscribed),
            ListReturn::Children => Ok(ListReturn::Children),
            ListReturn::Status(items) => Ok(ListReturn::Status(items.try_copy(alloc)?)),
        }
    }
}

impl Same for ListReturn {
    fn is_same(&self, other: &ListReturn) -> bool {
        match (self, other) {
            (ListReturn::Subscribed, ListReturn::Subscribed)
            | (ListReturn::Children, ListReturn::Children) => true,
            (ListReturn::Status(items), ListReturn::Status(others)) => items.is_same(others),
            _ => false,
        }
    }
}

impl TryCopy for Patterns {
    fn try_copy(&self, alloc: Global) -> Result<Patterns, AllocError> {
        match self {
            Patterns::One(pattern) => Ok(Patterns::One(pattern.try_copy()?)),
            Patterns::Many(patterns) => Ok(Patterns::Many(patterns.try_copy(alloc)?)),
        }
    }
}

impl Same for Patterns {
    fn is_same(&self, other: &Patterns) -> bool {
        match (self, other) {
            (Patterns::One(pattern), Patterns::One(other)) => pattern.is_same(other),
            (Patterns::Many(patterns), Patterns::Many(others)) => patterns.is_same(others),
            _ => false,
        }
    }
}
