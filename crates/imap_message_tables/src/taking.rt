//! Rows that are taken from the end of a list.

ghost use Rattle.std.specs.Prelude.{◌≡◌, ◌++◌, ◌+◌, MatchOption, option_to_list, vec_len};

/// The number of rows whose room is let go at once.
const ROWS_AT_ONCE: usize = 4_096;

/// Takes the last row, if there is one. The room of rows that were taken is let go now and then, so that what is
/// made of them has it.
pub fn take_last<R>(rows: &mut Vec<R>) -> Option<R>
    ensures items { rows.old.items ≡ rows.new.items ++ option_to_list result }
    ensures cases { MatchOption result ((vec_len rows.old ≡ 0) × (vec_len rows.new ≡ 0))
        (λ _. vec_len rows.new + 1 ≡ vec_len rows.old) }
{
    if rows.len() % ROWS_AT_ONCE == 0 {
        rows.shrink_to_fit();
    }
    rows.pop()
}
