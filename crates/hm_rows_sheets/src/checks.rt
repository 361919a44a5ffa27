//! Which sheets are valid, and where others break a rule first.
use hm_data::{Act, Back, Row, Sheet};
use hm_names::List;
use hm_sheet::{SheetFault, check_sheet};
use std::alloc::AllocGlobal;
use std::process::Abort;

// A row before the point, one that is undone by its edits, and one after the point.
macro_rules! row {
    ($act:ident to $next:expr) => {
        Row {
            act: Act::$act,
            next: $next,
            after: false,
            undo: Back::Nothing,
        }
    };
    ($act:ident to $next:expr, undone by $undo:ident) => {
        Row {
            act: Act::$act,
            next: $next,
            after: false,
            undo: Back::$undo,
        }
    };
    ($act:ident to $next:expr, after) => {
        Row {
            act: Act::$act,
            next: $next,
            after: true,
            undo: Back::Nothing,
        }
    };
}

// A kind, rows, and the row and the rule of the first fault.
type Case = (u8, &'static [Row], Option<SheetFault>);

// The fault of a rule at a row.
macro_rules! fault {
    ($row:expr, $rule:expr) => {
        Some(SheetFault {
            row: $row,
            rule: $rule,
        })
    };
}

static NAMESPACE: [Row; 2] = [row!(CheckNamespaceFree to 1), row!(AddNamespace to 255)];

static LOOPED: [Row; 3] = [
    row!(CheckNamespaceFree to 2),
    row!(CheckNamespaceFree to 2),
    row!(AddNamespace to 255),
];

static FALSE_START: [Row; 2] = [row!(AddNamespace to 255), row!(CheckNamespaceFree to 0)];

static CRASH: [Row; 2] = [row!(Fence to 1, after), row!(Reassign to 1, after)];

static SPLIT_NOWHERE: [Row; 1] = [row!(CheckSplit to 9)];

static SPLIT_LONG: [Row; 33] = [row!(CheckSplit to 32); 33];

static SPLIT_BACK: [Row; 6] = [
    row!(CheckSplit to 1),
    row!(CloseParent to 2, undone by Reopen),
    row!(Layout to 3, undone by Sweep),
    row!(UpdateSplitMeta to 4, undone by Edits),
    row!(OpenDaughters to 5, after),
    row!(Finish to 255),
];

static SPLIT: [Row; 6] = [
    row!(CheckSplit to 1),
    row!(CloseParent to 2, undone by Reopen),
    row!(Layout to 3, undone by Sweep),
    row!(UpdateSplitMeta to 4, undone by Edits),
    row!(OpenDaughters to 5, after),
    row!(Finish to 255, after),
];

static SPLIT_EARLY: [Row; 6] = [
    row!(CheckSplit to 1),
    row!(OpenDaughters to 2),
    row!(CloseParent to 3, undone by Reopen),
    row!(Layout to 4, undone by Sweep),
    row!(UpdateSplitMeta to 5, undone by Edits),
    row!(Finish to 255, after),
];

/// The second order: the layout comes before the parent is closed.
pub static LAYOUT_FIRST: [Row; 6] = [
    row!(CheckSplit to 1),
    row!(Layout to 2, undone by Sweep),
    row!(CloseParent to 3, undone by Reopen),
    row!(UpdateSplitMeta to 4, undone by Edits),
    row!(OpenDaughters to 5, after),
    row!(Finish to 255, after),
];

// The rows stand in the first order, and are led through in the second.
static LAYOUT_LED_FIRST: [Row; 6] = [
    row!(CheckSplit to 2),
    row!(CloseParent to 3, undone by Reopen),
    row!(Layout to 1, undone by Sweep),
    row!(UpdateSplitMeta to 4, undone by Edits),
    row!(OpenDaughters to 5, after),
    row!(Finish to 255, after),
];

// Both rows have the undo that the first order has at their places.
static LAYOUT_REOPENED: [Row; 6] = [
    row!(CheckSplit to 1),
    row!(Layout to 2, undone by Reopen),
    row!(CloseParent to 3, undone by Sweep),
    row!(UpdateSplitMeta to 4, undone by Edits),
    row!(OpenDaughters to 5, after),
    row!(Finish to 255, after),
];

static PARENT_SWEPT: [Row; 6] = [
    row!(CheckSplit to 1),
    row!(Layout to 2, undone by Sweep),
    row!(CloseParent to 3, undone by Sweep),
    row!(UpdateSplitMeta to 4, undone by Edits),
    row!(OpenDaughters to 5, after),
    row!(Finish to 255, after),
];

static META_LATE: [Row; 6] = [
    row!(CheckSplit to 1),
    row!(Layout to 2, undone by Sweep),
    row!(CloseParent to 3, undone by Reopen),
    row!(UpdateSplitMeta to 4, after),
    row!(OpenDaughters to 5, after),
    row!(Finish to 255, after),
];

static DAUGHTERS_EARLY: [Row; 6] = [
    row!(CheckSplit to 1),
    row!(Layout to 2, undone by Sweep),
    row!(CloseParent to 3, undone by Reopen),
    row!(UpdateSplitMeta to 4, undone by Edits),
    row!(OpenDaughters to 5),
    row!(Finish to 255, after),
];

// The parent stays open.
static LAYOUT_ALONE: [Row; 5] = [
    row!(CheckSplit to 1),
    row!(Layout to 2, undone by Sweep),
    row!(UpdateSplitMeta to 3, undone by Edits),
    row!(OpenDaughters to 4, after),
    row!(Finish to 255, after),
];

// A merge has one order.
static MERGE_LAYOUT_FIRST: [Row; 6] = [
    row!(CheckMerge to 1),
    row!(Layout to 2, undone by Sweep),
    row!(CloseParents to 3, undone by Reopen),
    row!(UpdateMergeMeta to 4, undone by Edits),
    row!(OpenMerged to 5, after),
    row!(Finish to 255, after),
];

static MERGE_LATE: [Row; 1] = [row!(CheckMerge to 255, after)];

static LAYOUT_LATE: [Row; 2] = [row!(Layout to 1), row!(Finish to 255, after)];

static ADD_KEPT: [Row; 1] = [row!(AddRegionRows to 255)];

static MERGE_SPLITS: [Row; 1] = [row!(UpdateSplitMeta to 255, undone by Edits)];

static TRANSIT_SHORT: [Row; 1] = [row!(GetAssignCandidate to 0, after)];

// Only edits are undone.
static SPLIT_KEPT: [Row; 6] = [
    row!(CheckSplit to 1),
    row!(CloseParent to 2),
    row!(Layout to 3),
    row!(UpdateSplitMeta to 4, undone by Edits),
    row!(OpenDaughters to 5, after),
    row!(Finish to 255, after),
];

static SPLIT_UNDONE: [Row; 2] = [
    row!(CheckSplit to 1),
    row!(CloseParent to 255, undone by Edits),
];

static FENCE_TWICE: [Row; 3] = [
    row!(CallFence to 1, after),
    row!(Settle to 255, after),
    row!(Settle to 255, after),
];

static LAYOUT_UNDONE: [Row; 2] = [
    row!(CallLayout to 1, undone by Sweep),
    row!(SettleLayout to 255),
];

const CASES: [Case; 28] = [
    (1, &NAMESPACE, None),
    (1, &LOOPED, None),
    (11, &CRASH, None),
    (8, &SPLIT, None),
    (1, &FALSE_START, fault!(0, 8)),
    (1, &[], fault!(0, 8)),
    (22, &NAMESPACE, fault!(0, 8)),
    (8, &SPLIT_NOWHERE, fault!(0, 1)),
    (8, &SPLIT_LONG, fault!(32, 2)),
    (8, &SPLIT_BACK, fault!(4, 3)),
    (9, &MERGE_LATE, fault!(0, 4)),
    (8, &LAYOUT_LATE, fault!(0, 5)),
    (20, &ADD_KEPT, fault!(0, 6)),
    (9, &MERGE_SPLITS, fault!(0, 7)),
    (10, &TRANSIT_SHORT, fault!(0, 8)),
    (8, &SPLIT_EARLY, fault!(1, 8)),
    (8, &SPLIT_KEPT, None),
    (8, &SPLIT_UNDONE, fault!(1, 8)),
    (25, &FENCE_TWICE, fault!(2, 8)),
    (26, &LAYOUT_UNDONE, fault!(0, 8)),
    (8, &LAYOUT_FIRST, None),
    (8, &LAYOUT_LED_FIRST, None),
    (8, &LAYOUT_REOPENED, fault!(1, 8)),
    (8, &PARENT_SWEPT, fault!(2, 8)),
    (8, &META_LATE, fault!(3, 8)),
    (8, &DAUGHTERS_EARLY, fault!(4, 8)),
    (8, &LAYOUT_ALONE, fault!(2, 8)),
    (9, &MERGE_LAYOUT_FIRST, fault!(1, 8)),
];

// The first fault of a sheet.
fn found(rt: &(impl Abort + AllocGlobal), kind: u8, rows: &[Row]) -> Option<SheetFault> {
    let rows = List::of(Vec::from_slice(rt.alloc(), rows).expect(rt, "memory"));
    let sheet = Sheet { kind, rows };
    let checked = check_sheet(&sheet);
    drop(sheet);
    match checked {
        Ok(()) => None,
        Err(fault) => Some(fault),
    }
}

#[test]
fn check_sheet_gives_the_first_fault(rt: HostRuntime) {
    for (kind, rows, expected) in CASES {
        assert!(rt; found(&rt, kind, rows) == expected, "kind {kind}");
    }
}
