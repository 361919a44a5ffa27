// Sorts of acts.
ghost use Rattle.std.specs.Prelude.{◌≡◌};
ghost use Rattle.hm_model.specs.ActSorts.{is_check as checks, is_edit as edits, editing_kinds as kinds};

use hm_data::Act;

/// The row that follows the last one.
pub const NO_ROW: u8 = 255;

/// Acts that only test.
pub fn is_check(act: Act) -> bool
    ensures { result ≡ checks act }
{
    matches!(
        act,
        Act::CheckNamespaceFree
            | Act::CheckNamespaceEmpty
            | Act::CheckTableFree
            | Act::CheckTableDisabled
            | Act::CheckTableEnabled
            | Act::CheckSplit
            | Act::CheckMerge
            | Act::CheckMove
    )
}

static NAMESPACE_KINDS: [u8; 2] = [1, 2];

static TABLE_KINDS: [u8; 5] = [3, 4, 5, 6, 7];

static SPLIT_KINDS: [u8; 1] = [8];

static MERGE_KINDS: [u8; 1] = [9];

static ADD_KINDS: [u8; 1] = [20];

static DROP_KINDS: [u8; 1] = [21];

/// The kinds whose root asks exclusively for all that the act edits; none for an act that edits nothing.
pub fn editing_kinds(act: Act) -> &'static [u8]
    ensures { result.now ≡ kinds act }
{
    match act {
        Act::AddNamespace | Act::DropNamespace => &NAMESPACE_KINDS,
        Act::AddTable
        | Act::SetEnabling
        | Act::SetEnabled
        | Act::DropTable
        | Act::SetDisabling
        | Act::SetDisabled
        | Act::SetVersion => &TABLE_KINDS,
        Act::UpdateSplitMeta => &SPLIT_KINDS,
        Act::UpdateMergeMeta => &MERGE_KINDS,
        Act::AddRegionRows => &ADD_KINDS,
        Act::DropRegionRows => &DROP_KINDS,
        _ => &[],
    }
}

/// Acts that edit the catalog.
pub fn is_edit(act: Act) -> bool
    ensures { result ≡ edits act }
{
    !editing_kinds(act).is_empty()
}
