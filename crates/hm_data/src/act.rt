ghost use Rattle.std.specs.Prelude.{◌≡◌, IfSome, Some};

use hm_names::{Copied, Same};
use std::alloc::{AllocError, Global};

/// What a row of a sheet does. The numbers are those of the log.
#[derive(Clone, Copy, Debug, PartialEq, Eq)]
pub enum Act {
    /// The namespace to create is not there yet.
    CheckNamespaceFree = 1,
    /// Adds the row of the namespace.
    AddNamespace = 2,
    /// The namespace to drop is there and has no table.
    CheckNamespaceEmpty = 3,
    /// Removes the row of the namespace.
    DropNamespace = 4,
    /// The namespace of the table to create is there, and the table is not.
    CheckTableFree = 5,
    /// Adds the row of the table.
    AddTable = 6,
    /// Has the storage write the files of the root.
    Layout = 7,
    /// Has the regions of the new table added.
    AddRegions = 8,
    /// Sets the table to enabling.
    SetEnabling = 9,
    /// Has the regions of the table assigned.
    OpenRegions = 10,
    /// Sets the table to enabled.
    SetEnabled = 11,
    /// The table is there and disabled.
    CheckTableDisabled = 12,
    /// Has the regions of the table dropped.
    DropRegions = 13,
    /// Removes the row of the table.
    DropTable = 14,
    /// The table is there and enabled.
    CheckTableEnabled = 15,
    /// Sets the table to disabling.
    SetDisabling = 16,
    /// Has the regions of the table unassigned.
    CloseRegions = 17,
    /// Sets the table to disabled.
    SetDisabled = 18,
    /// Gives the table its new version.
    SetVersion = 19,
    /// The region can be split at the key.
    CheckSplit = 20,
    /// Has the region to split unassigned.
    CloseParent = 21,
    /// Marks the region as split and adds its two daughters.
    UpdateSplitMeta = 22,
    /// Has the daughters assigned.
    OpenDaughters = 23,
    /// Ends a split or a merge.
    Finish = 24,
    /// The regions can be merged.
    CheckMerge = 25,
    /// Has the regions to merge unassigned.
    CloseParents = 26,
    /// Marks the regions as merged and adds the one that they become.
    UpdateMergeMeta = 27,
    /// Has the merged region assigned.
    OpenMerged = 28,
    /// Adds the rows of some regions.
    AddRegionRows = 29,
    /// Removes the rows of some regions.
    DropRegionRows = 30,
    /// Picks a server for the region.
    GetAssignCandidate = 31,
    /// Has the region opened at its server.
    Open = 32,
    /// Takes in whether the region was opened.
    ConfirmOpened = 33,
    /// Has the region closed at its server.
    Close = 34,
    /// Takes in whether the region was closed.
    ConfirmClosed = 35,
    /// The region can be moved.
    CheckMove = 36,
    /// Has the dead server fenced.
    Fence = 37,
    /// Has regions of the dead server assigned anew.
    Reassign = 38,
    /// Calls the server to open the region.
    CallAssign = 39,
    /// Calls the server to close the region.
    CallClose = 40,
    /// Ends a call with its report.
    Settle = 41,
    /// Calls the storage to fence the server.
    CallFence = 42,
    /// Calls the storage to write files.
    CallLayout = 43,
    /// Ends a call for files, which the storage may have refused.
    SettleLayout = 44,
    /// Calls the storage to remove files.
    CallSweep = 45,
}

impl Copied for Act {
    fn copy(&self, _alloc: Global) -> Result<Act, AllocError> {
        Ok(*self)
    }
}

impl Same for Act {
    fn same(&self, other: &Act) -> bool {
        self == other
    }
}

impl Act {
    ghost use Rattle.hm_data.specs.Numbers.{act_number, act_of};

    /// The number of the act.
    pub fn number(self) -> u8
        ensures number { result ≡ act_number self }
        ensures back { act_of result ≡ Some self }
    {
        self as u8
    }

    /// The act of a number.
    pub fn of(number: u8) -> Option<Act>
        ensures value { result ≡ act_of number }
        ensures back { IfSome result (λ x. act_number x ≡ number) }
    {
        match number {
            1 => Some(Act::CheckNamespaceFree),
            2 => Some(Act::AddNamespace),
            3 => Some(Act::CheckNamespaceEmpty),
            4 => Some(Act::DropNamespace),
            5 => Some(Act::CheckTableFree),
            6 => Some(Act::AddTable),
            7 => Some(Act::Layout),
            8 => Some(Act::AddRegions),
            9 => Some(Act::SetEnabling),
            10 => Some(Act::OpenRegions),
            11 => Some(Act::SetEnabled),
            12 => Some(Act::CheckTableDisabled),
            13 => Some(Act::DropRegions),
            14 => Some(Act::DropTable),
            15 => Some(Act::CheckTableEnabled),
            16 => Some(Act::SetDisabling),
            17 => Some(Act::CloseRegions),
            18 => Some(Act::SetDisabled),
            19 => Some(Act::SetVersion),
            20 => Some(Act::CheckSplit),
            21 => Some(Act::CloseParent),
            22 => Some(Act::UpdateSplitMeta),
            23 => Some(Act::OpenDaughters),
            24 => Some(Act::Finish),
            25 => Some(Act::CheckMerge),
            26 => Some(Act::CloseParents),
            27 => Some(Act::UpdateMergeMeta),
            28 => Some(Act::OpenMerged),
            29 => Some(Act::AddRegionRows),
            30 => Some(Act::DropRegionRows),
            31 => Some(Act::GetAssignCandidate),
            32 => Some(Act::Open),
            33 => Some(Act::ConfirmOpened),
            34 => Some(Act::Close),
            35 => Some(Act::ConfirmClosed),
            36 => Some(Act::CheckMove),
            37 => Some(Act::Fence),
            38 => Some(Act::Reassign),
            39 => Some(Act::CallAssign),
            40 => Some(Act::CallClose),
            41 => Some(Act::Settle),
            42 => Some(Act::CallFence),
            43 => Some(Act::CallLayout),
            44 => Some(Act::SettleLayout),
            45 => Some(Act::CallSweep),
            _ => None,
        }
    }
}

/// How a step is undone.
#[derive(Clone, Copy, Debug, PartialEq, Eq)]
pub enum Back {
    Nothing,
    Edits,
    Sweep,
    Reopen,
}

impl Copied for Back {
    fn copy(&self, _alloc: Global) -> Result<Back, AllocError> {
        Ok(*self)
    }
}

impl Same for Back {
    fn same(&self, other: &Back) -> bool {
        self == other
    }
}

impl Back {
    ghost use Rattle.hm_data.specs.Numbers.{back_number, back_of};

    /// The number of the undo.
    pub fn number(self) -> u8
        ensures number { result ≡ back_number self }
        ensures back { back_of result ≡ Some self }
    {
        self as u8
    }

    /// The undo of a number.
    pub fn of(number: u8) -> Option<Back>
        ensures value { result ≡ back_of number }
        ensures back { IfSome result (λ x. back_number x ≡ number) }
    {
        match number {
            0 => Some(Back::Nothing),
            1 => Some(Back::Edits),
            2 => Some(Back::Sweep),
            3 => Some(Back::Reopen),
            _ => None,
        }
    }
}
