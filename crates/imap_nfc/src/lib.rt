//! Text in Normalization Form C.
//!
//! Names, identifiers and the text that SEARCH looks for are brought to it (RFC 5198, section 3) by
//! `unicode_normalization`. This crate has the definition that their contracts share, and its [`laws`].
#![tactic(auto)]

pub mod laws;
