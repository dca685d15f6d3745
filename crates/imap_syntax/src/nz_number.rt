//! Numbers from 1 (RFC 9051, section 9, `nz-number` and `nz-number64`).

ghost use Rattle.std.specs.Prelude.{◌≡◌, ◌<◌, false, MatchOption};
ghost use Rattle.imap_syntax.specs.Written.{nz_number64, IsNzNumber64};

use crate::write_values::mod_sequence_fits;
use std::marker::Model;

/// A number from 1 to 2^32 - 1 (RFC 9051, section 9, `nz-number`), as that of a message.
#[derive(Clone, Copy, PartialEq, Eq)]
pub struct NzNumber {
    number: u32,
}

impl Model for NzNumber {
    ghost use Rattle.std.specs.Prelude.{◌<◌, ℕ};

    ghost Value = { ℕ };

    ghost view = { λ n. n.number };

    ghost invariant = { λ n. 0 < n.number };

    ghost inverse = { λ n. record { number = n } };
}

impl NzNumber {
    /// Returns the number, or `None` if it is 0.
    pub fn new(number: u32) -> Option<NzNumber>
        ensures { MatchOption result (number ≡ 0) (λ made. made ≡ number) }
    {
        if number == 0 {
            None
        } else {
            Some(NzNumber { number })
        }
    }

    /// Returns the number, which is not 0.
    pub(crate) fn of(number: u32) -> NzNumber
        requires { 0 < number }
        ensures { result ≡ number }
    {
        NzNumber { number }
    }

    /// Returns the number.
    pub fn get(self) -> u32
        ensures number { result ≡ self }
        ensures valid { 0 < result }
    {
        self.number
    }
}

/// A number from 1 to 2^63 - 1 (RFC 9051, section 9, `nz-number64`).
#[derive(Clone, Copy, PartialEq, Eq)]
pub struct NzNumber64 {
    number: u64,
}

impl Model for NzNumber64 {
    ghost use Rattle.std.specs.Prelude.{ℕ};
    ghost use Rattle.imap_syntax.specs.Written.{IsNzNumber64};

    ghost Value = { ℕ };

    ghost view = { λ n. n.number };

    ghost invariant = { λ n. IsNzNumber64 n.number };

    ghost inverse = { λ n. record { number = n } };
}

impl NzNumber64 {
    /// Returns the number, or `None` if it is 0 or over 2^63 - 1.
    pub fn new(number: u64) -> Option<NzNumber64>
        ensures { MatchOption result (nz_number64.fits number ≡ false) (λ made. made ≡ number) }
    {
        if mod_sequence_fits(number) {
            Some(NzNumber64 { number })
        } else {
            None
        }
    }

    /// Returns the number, which is in the range.
    pub(crate) fn of(number: u64) -> NzNumber64
        requires { IsNzNumber64 number }
        ensures { result ≡ number }
    {
        NzNumber64 { number }
    }

    /// Returns the number.
    pub fn get(self) -> u64
        ensures number { result ≡ self }
        ensures valid { IsNzNumber64 result }
    {
        self.number
    }
}
