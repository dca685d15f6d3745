//! Tests of mod-sequences.

use crate::owned::push_text;
use crate::wanted::expect_text;
use imap_modseq::{Clocks, ClocksError, count_before};
use std::alloc::{AllocError, Global};

/// Four shared events. bob makes an own change after the second and after the fourth, and then ann does.
fn make_events(alloc: Global, clocks: &mut Clocks) -> Result<(), ClocksError> {
    clocks.shared_event()?;
    clocks.shared_event()?;
    clocks.own_event(alloc, "bob")?;
    clocks.shared_event()?;
    clocks.shared_event()?;
    clocks.own_event(alloc, "bob")?;
    clocks.own_event(alloc, "ann")
}

/// The mod-sequences for a user of all shared events, then those of the user's own changes, and the highest.
fn push_numbers(
    alloc: Global,
    text: &mut String,
    clocks: &Clocks,
    user: &str,
) -> Result<(), AllocError> {
    for place in 0..clocks.shared_len() {
        push_text(
            text,
            format!(in alloc; "{} ", clocks.number_of(user, place)),
        )?;
    }
    push_text(text, String::from_str(alloc, "| "))?;
    for place in 0..clocks.own_len(user) {
        push_text(
            text,
            format!(in alloc; "{} ", clocks.own_number(user, place)),
        )?;
    }
    push_text(text, format!(in alloc; "| {}", clocks.highest(user)))
}

/// The numbers of a copy.
fn numbers(alloc: Global, clocks: &Clocks, user: &str) -> Result<String, AllocError> {
    let copy = clocks.try_copy(alloc)?;
    let mut text = String::new(alloc);
    let pushed = push_numbers(alloc, &mut text, &copy, user);
    drop(copy);
    pushed?;
    Ok(text)
}

fn numbers_for(alloc: Global, user: &str) -> Result<String, ClocksError> {
    let mut clocks = Clocks::new(alloc);
    let made = make_events(alloc, &mut clocks);
    let numbers = numbers(alloc, &clocks, user);
    drop(clocks);
    made?;
    Ok(numbers?)
}

#[test]
fn own_changes_stand_among_shared_events(rt: HostRuntime) {
    const ROWS: &[(&str, &str)] = &[
        ("bob", "2 3 5 6 | 4 7 | 7"),
        ("ann", "2 3 4 5 | 6 | 6"),
        ("cy", "2 3 4 5 | | 5"),
    ];
    for &(user, wanted) in ROWS {
        expect_text(&rt, numbers_for(rt.alloc(), user), wanted);
    }
    expect_text(
        &rt,
        numbers(rt.alloc(), &Clocks::new(rt.alloc()), "ann"),
        "| | 1",
    );
    assert!(rt; count_before(&[2_u64, 4], 3) == 1);
}
