// The rows that the kinds of procedures list.
ghost use Rattle.std.specs.Prelude.{◌≡◌, ◌≤◌, length, map};
ghost use Rattle.hm_model.specs.Lists.{lines_of as listed, layout_first as second, exact_rows as exact};
ghost use Rattle.hm_sheet.specs.Lines.{line_of};

use hm_data::{Act, Back, Row};

/// A row as a kind lists it: its act, whether it is after the point, and the undo that it may have instead of none.
#[derive(Clone, Copy)]
pub(crate) struct Line {
    pub(crate) act: Act,
    pub(crate) after: bool,
    pub(crate) undo: Back,
}

// A line before the point without an undo, one with an undo, and one after the point.
macro_rules! line {
    ($act:ident) => {
        Line {
            act: Act::$act,
            after: false,
            undo: Back::Nothing,
        }
    };
    ($act:ident undone by $undo:ident) => {
        Line {
            act: Act::$act,
            after: false,
            undo: Back::$undo,
        }
    };
    ($act:ident after) => {
        Line {
            act: Act::$act,
            after: true,
            undo: Back::Nothing,
        }
    };
}

static CREATE_NAMESPACE: [Line; 2] = [line!(CheckNamespaceFree), line!(AddNamespace)];

static DROP_NAMESPACE: [Line; 2] = [line!(CheckNamespaceEmpty), line!(DropNamespace)];

static CREATE_TABLE: [Line; 7] = [
    line!(CheckTableFree),
    line!(AddTable undone by Edits),
    line!(Layout undone by Sweep),
    line!(AddRegions),
    line!(SetEnabling undone by Edits),
    line!(OpenRegions after),
    line!(SetEnabled after),
];

static DELETE_TABLE: [Line; 3] = [
    line!(CheckTableDisabled),
    line!(DropRegions after),
    line!(DropTable after),
];

static ENABLE_TABLE: [Line; 4] = [
    line!(CheckTableDisabled),
    line!(SetEnabling undone by Edits),
    line!(OpenRegions after),
    line!(SetEnabled after),
];

static DISABLE_TABLE: [Line; 4] = [
    line!(CheckTableEnabled),
    line!(SetDisabling undone by Edits),
    line!(CloseRegions after),
    line!(SetDisabled after),
];

static MODIFY_TABLE: [Line; 2] = [line!(CheckTableDisabled), line!(SetVersion)];

static SPLIT_REGION: [Line; 6] = [
    line!(CheckSplit),
    line!(CloseParent undone by Reopen),
    line!(Layout undone by Sweep),
    line!(UpdateSplitMeta undone by Edits),
    line!(OpenDaughters after),
    line!(Finish after),
];

static LAYOUT_FIRST: [Line; 6] = [
    line!(CheckSplit),
    line!(Layout undone by Sweep),
    line!(CloseParent undone by Reopen),
    line!(UpdateSplitMeta undone by Edits),
    line!(OpenDaughters after),
    line!(Finish after),
];

static MERGE_REGIONS: [Line; 6] = [
    line!(CheckMerge),
    line!(CloseParents undone by Reopen),
    line!(Layout undone by Sweep),
    line!(UpdateMergeMeta undone by Edits),
    line!(OpenMerged after),
    line!(Finish after),
];

static ADD_REGIONS: [Line; 1] = [line!(AddRegionRows undone by Edits)];

static DROP_REGIONS: [Line; 1] = [line!(DropRegionRows after)];

/// The second order of a split: the layout comes before the parent is closed.
pub(crate) fn layout_first() -> &'static [Line]
    ensures lines { map line_of result.now ≡ second }
    ensures few { length result.now ≤ 200 }
{
    &LAYOUT_FIRST
}

/// The lines of the kinds whose handlers may number their rows as they like, in the order in which they are led through; of a
/// split those of its first order.
pub(crate) fn lines_of(kind: u8) -> &'static [Line]
    ensures lines { map line_of result.now ≡ listed kind }
    ensures few { length result.now ≤ 200 }
{
    match kind {
        1 => &CREATE_NAMESPACE,
        2 => &DROP_NAMESPACE,
        3 => &CREATE_TABLE,
        4 => &DELETE_TABLE,
        5 => &ENABLE_TABLE,
        6 => &DISABLE_TABLE,
        7 => &MODIFY_TABLE,
        8 => &SPLIT_REGION,
        9 => &MERGE_REGIONS,
        20 => &ADD_REGIONS,
        21 => &DROP_REGIONS,
        _ => &[],
    }
}

// A row that leads to another, before the point and after it.
macro_rules! row {
    ($act:ident to $next:expr) => {
        Row {
            act: Act::$act,
            next: $next,
            after: false,
            undo: Back::Nothing,
        }
    };
    ($act:ident to $next:expr, after) => {
        Row {
            act: Act::$act,
            next: $next,
            after: true,
            undo: Back::Nothing,
        }
    };
}

static TRANSIT: [Row; 6] = [
    row!(GetAssignCandidate to 1, after),
    row!(Open to 2, after),
    row!(ConfirmOpened to 0, after),
    row!(Close to 4, after),
    row!(ConfirmClosed to 0, after),
    row!(CheckMove to 3),
];

static SERVER_CRASH: [Row; 2] = [row!(Fence to 1, after), row!(Reassign to 1, after)];

static ASSIGN_CALL: [Row; 2] = [row!(CallAssign to 1, after), row!(Settle to 255, after)];

static CLOSE_CALL: [Row; 2] = [row!(CallClose to 1, after), row!(Settle to 255, after)];

static FENCE_CALL: [Row; 2] = [row!(CallFence to 1, after), row!(Settle to 255, after)];

static LAYOUT_CALL: [Row; 2] = [row!(CallLayout to 1), row!(SettleLayout to 255)];

static SWEEP_LAYOUT: [Row; 2] = [row!(CallSweep to 1, after), row!(Settle to 255, after)];

/// The rows of the kinds that have just these.
pub(crate) fn exact_rows(kind: u8) -> &'static [Row]
    ensures { result.now ≡ exact kind }
{
    match kind {
        10 => &TRANSIT,
        11 => &SERVER_CRASH,
        23 => &ASSIGN_CALL,
        24 => &CLOSE_CALL,
        25 => &FENCE_CALL,
        26 => &LAYOUT_CALL,
        27 => &SWEEP_LAYOUT,
        _ => &[],
    }
}
