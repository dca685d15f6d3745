//! The values in the columns of a row.

ghost use Rattle.std.specs.Prelude.{◌+◌, ◌≡◌, ◌≢◌, ◌<◌, ℕ, ℤ, Bool, pos, IfErr, IfOk, IsUtf8, List};
ghost use Rattle.std.specs.Prelude.{length, string_bytes};
ghost use Rattle.imap_tables.specs.Rows.{flag_of};
ghost use Rattle.imap_tables.specs.Stored.{IsShort};
ghost use Rattle.sqlite.specs.Order.{column};
ghost use Rattle.sqlite.specs.declared.types.Value.{Value};
ghost use Rattle.sqlite.specs.declared.types.Value.TheVariants.{Int, Text as Words, Blob as Bytes};
ghost use Rattle.sqlite.specs.declared.error.Error.TheVariants.{SqliteFailure};
ghost use Rattle.sqlite.specs.declared.error.ErrorCode.TheVariants.{OutOfMemory};

use imap_lex::Octets;
use sqlite::{Error, Row};

/// What is read of one column.
pub(crate) trait Cell: Sized + Drop {
    /// It is read of this value.
    ghost is_of: { Value → Self → Type 0 };

    /// One is read of this value.
    ghost shows: { Value → Type 0 };

    /// Reads a column. Fails if nothing is read of it, or for want of memory.
    fn read_at(row: &Row, at: usize) -> Result<Self, Error>
        requires { at < length row.now }
        ensures ok { IfOk result (λ it. is_of (column row.now at) it) }
        ensures err { IfErr result (λ e. e ≢ SqliteFailure OutOfMemory
            → (it : Self) → is_of (column row.now at) it → ⊥) }
        ensures unread { IfErr result (λ e. e ≢ SqliteFailure OutOfMemory
            → shows (column row.now at) → ⊥) };
}

impl Cell for i64 {
    ghost is_of = { λ v n. v ≡ Int n };

    ghost shows = { λ v. (n : ℤ) × (v ≡ Int n) };

    fn read_at(row: &Row, at: usize) -> Result<i64, Error> {
        row.get(at)
    }
}

impl Cell for u32 {
    ghost is_of = { λ v n. (v ≡ Int (pos n)) × IsShort n };

    ghost shows = { λ v. (n : ℕ) × (v ≡ Int (pos n)) × IsShort n };

    fn read_at(row: &Row, at: usize) -> Result<u32, Error> {
        row.get(at)
    }
}

impl Cell for String {
    ghost is_of = { λ v text. v ≡ Words (string_bytes text) };

    ghost shows = { λ v. (text : List ℕ) × (v ≡ Words text) × IsUtf8 text };

    #[tactic(auto, using(crate::proofs::Utf8::text_is_utf8))]
    fn read_at(row: &Row, at: usize) -> Result<String, Error> {
        row.get(at)
    }
}

impl Cell for Octets {
    ghost is_of = { λ v octets. v ≡ Bytes octets };

    ghost shows = { λ v. (octets : List ℕ) × (v ≡ Bytes octets) };

    fn read_at(row: &Row, at: usize) -> Result<Octets, Error> {
        let octets: Vec<u8> = row.get(at)?;
        Ok(Octets::from_vec(octets)?)
    }
}

/// The column has 1 or 0.
impl Cell for bool {
    ghost is_of = { λ v flag. v ≡ Int (flag_of flag) };

    ghost shows = { λ v. (flag : Bool) × (v ≡ Int (flag_of flag)) };

    fn read_at(row: &Row, at: usize) -> Result<bool, Error> {
        let number: i64 = row.get(at)?;
        match number {
            0 => Ok(false),
            1 => Ok(true),
            _ => Err(Error::IntegralValueOutOfRange(at)),
        }
    }
}

/// Reads the three columns from `at` on. Fails too if the row has not `width` columns.
pub(crate) fn three_at<A: Cell, B: Cell, C: Cell>(
    row: &Row,
    width: usize,
    at: usize,
) -> Result<(A, B, C), Error>
    requires { at + 2 < width }
    ensures width { IfOk result (λ it. length row.now ≡ width) }
    ensures first { IfOk result (λ it. A.Cell.is_of (column row.now at) it.0) }
    ensures second { IfOk result (λ it. B.Cell.is_of (column row.now (at + 1)) it.1) }
    ensures third { IfOk result (λ it. C.Cell.is_of (column row.now (at + 2)) it.2) }
    ensures err { IfErr result (λ e. e ≢ SqliteFailure OutOfMemory → length row.now ≡ width
        → (a : A) → A.Cell.is_of (column row.now at) a
        → (b : B) → B.Cell.is_of (column row.now (at + 1)) b
        → (c : C) → C.Cell.is_of (column row.now (at + 2)) c → ⊥) }
    ensures unread { IfErr result (λ e. e ≢ SqliteFailure OutOfMemory → length row.now ≡ width
        → A.Cell.shows (column row.now at)
        → B.Cell.shows (column row.now (at + 1))
        → C.Cell.shows (column row.now (at + 2)) → ⊥) }
{
    if row.column_count() != width {
        return Err(Error::InvalidColumnIndex(width));
    }
    let first = A::read_at(row, at)?;
    let second = B::read_at(row, at + 1)?;
    let third = C::read_at(row, at + 2)?;
    Ok((first, second, third))
}

/// Reads the four columns from `at` on. Fails too if the row has not `width` columns.
pub(crate) fn four_at<A: Cell, B: Cell, C: Cell, D: Cell>(
    row: &Row,
    width: usize,
    at: usize,
) -> Result<(A, B, C, D), Error>
    requires { at + 3 < width }
    ensures width { IfOk result (λ it. length row.now ≡ width) }
    ensures first { IfOk result (λ it. A.Cell.is_of (column row.now at) it.0) }
    ensures second { IfOk result (λ it. B.Cell.is_of (column row.now (at + 1)) it.1) }
    ensures third { IfOk result (λ it. C.Cell.is_of (column row.now (at + 2)) it.2) }
    ensures fourth { IfOk result (λ it. D.Cell.is_of (column row.now (at + 3)) it.3) }
    ensures err { IfErr result (λ e. e ≢ SqliteFailure OutOfMemory → length row.now ≡ width
        → (a : A) → A.Cell.is_of (column row.now at) a
        → (b : B) → B.Cell.is_of (column row.now (at + 1)) b
        → (c : C) → C.Cell.is_of (column row.now (at + 2)) c
        → (d : D) → D.Cell.is_of (column row.now (at + 3)) d → ⊥) }
    ensures unread { IfErr result (λ e. e ≢ SqliteFailure OutOfMemory → length row.now ≡ width
        → A.Cell.shows (column row.now at)
        → B.Cell.shows (column row.now (at + 1))
        → C.Cell.shows (column row.now (at + 2))
        → D.Cell.shows (column row.now (at + 3)) → ⊥) }
{
    let (first, second, third) = three_at(row, width, at)?;
    let fourth = D::read_at(row, at + 3)?;
    Ok((first, second, third, fourth))
}
