// The rules of one row.
ghost use Rattle.std.specs.Prelude.{◌≡◌, ◌==◌, ◌&&◌, ◌||◌, not, true, false, nat_lt, length};
ghost use Rattle.hm_data.specs.Numbers.{back_number};
ghost use Rattle.hm_model.specs.ActSorts.{is_check as checks, is_layout as layouts, is_edit as edits, editing_kinds as kinds};
ghost use Rattle.hm_model.specs.Answers.{no_row};
ghost use Rattle.hm_model.specs.Validity.{is_among as among, is_none_or_marked as marked, follower as follows, ends_root as ends, row_rules, first_broken};

use hm_acts::{NO_ROW, editing_kinds, is_check, is_edit};
use hm_data::{Act, Row};

// The most rows that a sheet may have.
const MOST_ROWS: usize = 32;

fn is_layout(act: Act) -> bool
    ensures { result ≡ layouts act }
{
    act == Act::Layout
}

/// Whether a number is among these.
pub(crate) fn is_among(numbers: &[u8], number: u8) -> bool
    ensures { result ≡ among numbers.now number }
{
    numbers.iter().any(|n| *n == number)
}

// The row that follows: none where the procedure ends.
fn follower(rows: &[Row], next: u8) -> Option<Row>
    ensures { result ≡ follows rows.now next }
{
    if next == NO_ROW {
        None
    } else {
        rows.get(usize::from(next)).copied()
    }
}

// There is no row, or it is after the point or not, as asked.
fn is_none_or_marked(row: Option<Row>, after: bool) -> bool
    ensures { result ≡ marked after row }
{
    match row {
        None => true,
        Some(row) => row.after == after,
    }
}

fn ends_root(kind: u8, row: Row) -> bool
    ensures { result ≡ ends kind row }
{
    row.next == NO_ROW && 1 <= kind && kind <= 11
}

// Rule 1: the next is a row or the end.
fn leads_somewhere(rows: &[Row], row: Row) -> bool
    ensures { result ≡ ((row.next == no_row) || nat_lt row.next (length rows.now)) }
{
    row.next == NO_ROW || usize::from(row.next) < rows.len()
}

// Rule 3: a row after the point leads to no row before it.
fn stays_after(rows: &[Row], row: Row) -> bool
    ensures { result ≡ (not row.after || marked true (follows rows.now row.next)) }
{
    !row.after || is_none_or_marked(follower(rows, row.next), true)
}

// Rule 4: a row after the point is no check and asks for no layout.
fn may_be_after(row: Row) -> bool
    ensures { result ≡ not (row.after && (checks row.act || layouts row.act)) }
{
    !(row.after && (is_check(row.act) || is_layout(row.act)))
}

// Rule 5: a row that asks for a layout leads to no row after the point.
fn leads_back_from_layout(rows: &[Row], row: Row) -> bool
    ensures { result ≡ (not (layouts row.act) || marked false (follows rows.now row.next)) }
{
    !is_layout(row.act) || is_none_or_marked(follower(rows, row.next), false)
}

// Rule 6: an edit before the point that doesn't end a root is undone by its edits.
fn can_be_undone(kind: u8, row: Row) -> bool
    ensures { result ≡ (not (edits row.act) || (row.after || (ends kind row || (back_number row.undo == 1)))) }
{
    !is_edit(row.act) || row.after || ends_root(kind, row) || row.undo.number() == 1
}

// Rule 7: what the row edits is asked for exclusively by the root of the kind.
fn is_covered(kind: u8, row: Row) -> bool
    ensures { result ≡ (not (edits row.act) || among (kinds row.act) kind) }
{
    !is_edit(row.act) || is_among(editing_kinds(row.act), kind)
}

/// The first of the rules 1 to 7 that the row at a place breaks.
pub(crate) fn broken_by_row(kind: u8, rows: &[Row], place: usize, row: Row) -> Option<u8>
    ensures { result ≡ first_broken (row_rules kind rows.now place row) }
{
    if !leads_somewhere(rows, row) {
        Some(1)
    } else if place >= MOST_ROWS {
        Some(2)
    } else if !stays_after(rows, row) {
        Some(3)
    } else if !may_be_after(row) {
        Some(4)
    } else if !leads_back_from_layout(rows, row) {
        Some(5)
    } else if !can_be_undone(kind, row) {
        Some(6)
    } else if !is_covered(kind, row) {
        Some(7)
    } else {
        None
    }
}
