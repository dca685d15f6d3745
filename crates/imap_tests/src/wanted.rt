//! What tests want. A test hands what it made to one of these functions, whether it was made or not, and has
//! no `?`: that is proved in a third of the time.

use std::fmt::Debug;
use std::process::Abort;
use std::str;

/// Asserts that these octets were made.
pub(crate) fn expect<E: Debug + Drop>(rt: &impl Abort, made: Result<Vec<u8>, E>, wanted: &[u8]) {
    match made {
        Ok(octets) => compare(rt, &octets, wanted),
        Err(error) => panic!(rt; "{error:?}"),
    }
}

/// Asserts that this text was made.
pub(crate) fn expect_text<E: Debug + Drop>(rt: &impl Abort, made: Result<String, E>, wanted: &str) {
    match made {
        Ok(text) => compare(rt, text.as_bytes(), wanted.as_bytes()),
        Err(error) => panic!(rt; "{error:?}"),
    }
}

fn compare(rt: &impl Abort, found: &[u8], wanted: &[u8]) {
    if found != wanted {
        let (found, wanted) = (str::from_utf8(found), str::from_utf8(wanted));
        panic!(rt; "{found:?} in place of {wanted:?}");
    }
}
