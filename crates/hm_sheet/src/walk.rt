// Whether the rows of a sheet are those of its kind.
ghost use Rattle.std.specs.Prelude.{◌≡◌, ◌≤◌, ◌==◌, ◌&&◌, not, length, map, slice_get};
ghost use Rattle.hm_model.specs.Lists.{orders_of};
ghost use Rattle.hm_model.specs.Validity.{fits as does_fit, astray as goes_astray, same_row as same, difference as differs, misfit as misfits, misfit_in as misfits_in, kept as are_kept, longest_kept};
ghost use Rattle.hm_sheet.specs.Lines.{line_of};
ghost use Rattle.hm_model.specs.Answers.{no_row};

use crate::lines::{Line, exact_rows, layout_first, lines_of};
use hm_acts::NO_ROW;
use hm_data::{Row, Sheet};

/// The row at a place.
pub(crate) fn row_at(rows: &[Row], place: usize) -> Option<Row>
    ensures { result ≡ slice_get rows.now place }
{
    rows.get(place).copied()
}

// The row is as the line lists it, with its undo or none.
fn fits(line: Line, row: Row) -> bool
    ensures { result ≡ does_fit (line_of line) row }
{
    row.act.number() == line.act.number()
        && row.after == line.after
        && (row.undo.number() == line.undo.number() || row.undo.number() == 0)
}

fn same_row(a: Row, b: Row) -> bool
    ensures { result ≡ same a b }
{
    a.act.number() == b.act.number()
        && a.next == b.next
        && a.after == b.after
        && a.undo.number() == b.undo.number()
}

// The row is as listed and leads on.
fn leads_on(line: Line, row: Row) -> bool
    ensures { result ≡ (does_fit (line_of line) row && not (row.next == no_row)) }
{
    fits(line, row) && row.next != NO_ROW
}

// The row is as listed and ends the procedure.
fn ends_here(line: Line, row: Row) -> bool
    ensures { result ≡ (does_fit (line_of line) row && (row.next == no_row)) }
{
    fits(line, row) && row.next == NO_ROW
}

// The place of the first row, led through from a place, that isn't as listed, or that ends too early or goes on too far.
// A row that isn't there is no such row.
fn astray(rows: &[Row], line: Line, following: &[Line], place: usize) -> Option<usize>
    ensures { result ≡ goes_astray rows.now (line_of line) (map line_of following.now) place }
{
    let Some(row) = row_at(rows, place) else {
        return None;
    };
    match following {
        [] => {
            if ends_here(line, row) {
                None
            } else {
                Some(place)
            }
        }
        [next, rest @ ..] => {
            if leads_on(line, row) {
                astray(rows, *next, rest, usize::from(row.next))
            } else {
                Some(place)
            }
        }
    }
}

// How many rows, led through from a place, are as listed before the first that isn't.
fn kept(rows: &[Row], lines: &[Line], place: usize) -> usize
    requires { length lines.now ≤ 200 }
    ensures count { result ≡ are_kept rows.now (map line_of lines.now) place }
    ensures few { result ≤ length lines.now }
{
    let [line, rest @ ..] = lines else {
        return 0;
    };
    match row_at(rows, place) {
        Some(row) if fits(*line, row) => kept(rows, rest, usize::from(row.next)) + 1,
        _ => 0,
    }
}

// Of the orders of a kind the one that rows keep to longest.
fn order_for(kind: u8, rows: &[Row]) -> &'static [Line]
    ensures { map line_of result.now ≡ longest_kept rows.now (orders_of kind) }
{
    let first = lines_of(kind);
    if kind != 8 {
        return first;
    }
    let second = layout_first();
    if kept(rows, first, 0) < kept(rows, second, 0) {
        second
    } else {
        first
    }
}

// The first place at which two lists of rows differ.
fn difference(rows: &[Row], others: &[Row]) -> Option<usize>
    ensures { result ≡ differs rows.now others.now 0 }
{
    for (place, row) in rows.iter().enumerate() {
        match others.get(place) {
            Some(other) if same_row(*row, *other) => {}
            _ => return Some(place),
        }
    }
    if others.len() > rows.len() {
        Some(rows.len())
    } else {
        None
    }
}

fn misfit_in(exact: &[Row], lines: &[Line], rows: &[Row]) -> Option<usize>
    ensures { result ≡ misfits_in exact.now (map line_of lines.now) rows.now }
{
    if rows.is_empty() {
        Some(0)
    } else if !exact.is_empty() {
        difference(exact, rows)
    } else {
        match lines {
            [] => Some(0),
            [first, following @ ..] => astray(rows, *first, following, 0),
        }
    }
}

/// The place at which the rows of a sheet are not those of its kind.
pub(crate) fn misfit(sheet: &Sheet) -> Option<usize>
    ensures { result ≡ misfits sheet.now }
{
    let rows = sheet.rows.as_slice();
    misfit_in(exact_rows(sheet.kind), order_for(sheet.kind, rows), rows)
}
