//! The table `regions`.
ghost use Rattle.std.specs.Prelude.{◌≡◌, ◌+◌, ◌<◌, ◌^◌, ◌++◌, ◌∷◌, [], IfOk, OnOk, codes, string_bytes};
ghost use Rattle.std.specs.List.{filter_map};
ghost use Rattle.hm_names.specs.Keys.{key_text};
ghost use Rattle.hm_names.specs.Regions.{region_text};
ghost use Rattle.hm_model.specs.Image.{counted};
ghost use Rattle.hm_places.specs.Places.{place_in};
ghost use Rattle.hm_show.specs.Lines.{AreLines, IsMore, IsMoreIf};
ghost use Rattle.hm_show.specs.Regions.{key_line, region_line, regions_table};
ghost use Rattle.hm_show.specs.Tables.{line_text, spaced};
ghost use Rattle.hm_show.specs.Words.{holder_text, place_text, status_text};

use crate::lines::Lines;
use crate::words::{Holder, place_name, status_name};
use hm_catalog::{Catalog, Span};
use hm_data::{CatKey, CatRow, Place, Status};
use hm_names::{KeyRange, RegionName};
use hm_places::{Places, places_follow};
use hm_records::Records;
use std::alloc::{AllocError, Global};

// Adds a region, with the keys from which and up to which it has rows.
fn put_range(text: &mut String, region: &RegionName, range: &KeyRange) -> Result<(), AllocError>
    ensures { OnOk result (string_bytes text.new ≡ string_bytes text.old ++ spaced (region_text region.now ∷ key_text range.now.start ∷ key_text range.now.end ∷ []) ++ codes " ") }
{
    let start = &range.start;
    let end = &range.end;
    write!(text, "{region} {start} {end} ")
}

// Adds what became of a region, how far it is open, and where.
fn put_place(text: &mut String, status: Status, place: &Place) -> Result<(), AllocError>
    ensures { OnOk result (string_bytes text.new ≡ string_bytes text.old ++ line_text (status_text status ∷ place_text place.now.state ∷ holder_text place.now.server ∷ [])) }
{
    let status = status_name(status);
    let state = place_name(place.state);
    let server = Holder(&place.server);
    write!(text, "{status} {state} {server}\n")
}

// Adds the line of a region.
fn put_region(
    lines: &mut Lines,
    region: &RegionName,
    range: &KeyRange,
    status: Status,
    place: &Place,
) -> Result<(), AllocError>
    requires { lines.old.count + 1 < 2 ^ 64 }
    ensures { OnOk result (IsMore (region_line region.now range.now status place.now) lines.old lines.new) }
{
    put_range(&mut lines.text, region, range)?;
    put_place(&mut lines.text, status, place)?;
    lines.count += 1;
    Ok(())
}

// Adds the line of a row, where it is a region's.
fn put_row(lines: &mut Lines, places: &Places, key: &CatKey, row: &CatRow) -> Result<(), AllocError>
    requires { lines.old.count + 1 < 2 ^ 64 }
    ensures { OnOk result (IsMoreIf (key_line (place_in places.now.places) (key.now, row.now)) lines.old lines.new) }
{
    let CatKey::Region(region) = key else {
        return Ok(());
    };
    let CatRow::Region {
        range,
        status,
        parents: _,
    } = row
    else {
        return Ok(());
    };
    put_region(lines, region, range, *status, places.of(region))
}

// The lines of the regions among rows, by where they are.
fn region_lines(alloc: Global, catalog: &Catalog, places: &Places) -> Result<Lines, AllocError>
    ensures { IfOk result (AreLines (filter_map (key_line (place_in places.now.places)) catalog.now.rows)) }
{
    let _most = catalog.len();
    let mut lines = Lines::new(alloc);
    for (key, row) in catalog.rows_of(Span::AllRegions) {
        put_row(&mut lines, places, key, row)?;
    }
    Ok(lines)
}

// The table `regions`: those that have a row, in name order. So many entries were recorded.
pub(crate) fn regions(alloc: Global, entries: u64, records: &Records) -> Result<Vec<u8>, AllocError>
    requires { entries ≡ counted records.now.past }
    ensures { IfOk result (λ table. table.items ≡ regions_table records.now.past) }
{
    places_follow();
    region_lines(alloc, records.catalog(), records.places())?.into_table(alloc, "regions", entries)
}
