//! The names of rows of sheets.
ghost use Rattle.std.specs.Prelude.{◌≡◌};
ghost use Rattle.hm_commands.specs.RowNames.{row_text};

use hm_data::Act;

/// The name of a row that does this, as HBase's states are named.
pub(crate) fn row_name(act: Act) -> &'static str
    ensures { result.now ≡ row_text act }
{
    match act {
        Act::CheckNamespaceFree
        | Act::CheckNamespaceEmpty
        | Act::CheckTableFree
        | Act::CheckTableDisabled
        | Act::CheckTableEnabled
        | Act::CheckSplit
        | Act::CheckMerge
        | Act::CheckMove => "PREPARE",
        Act::AddNamespace | Act::AddRegionRows => "ADD",
        Act::DropNamespace | Act::DropRegionRows => "DROP",
        Act::AddTable => "ADD_TABLE",
        Act::Layout => "LAYOUT",
        Act::AddRegions => "ADD_REGIONS",
        Act::SetEnabling => "SET_ENABLING",
        Act::OpenRegions => "OPEN_REGIONS",
        Act::SetEnabled => "SET_ENABLED",
        Act::DropRegions => "DROP_REGIONS",
        Act::DropTable => "DROP_TABLE",
        Act::SetDisabling => "SET_DISABLING",
        Act::CloseRegions => "CLOSE_REGIONS",
        Act::SetDisabled => "SET_DISABLED",
        Act::SetVersion => "SET_VERSION",
        Act::CloseParent => "CLOSE_PARENT",
        Act::UpdateSplitMeta | Act::UpdateMergeMeta => "UPDATE_META",
        Act::OpenDaughters => "OPEN_DAUGHTERS",
        Act::Finish => "FINISH",
        Act::CloseParents => "CLOSE_PARENTS",
        Act::OpenMerged => "OPEN_MERGED",
        Act::GetAssignCandidate => "GET_ASSIGN_CANDIDATE",
        Act::Open => "OPEN",
        Act::ConfirmOpened => "CONFIRM_OPENED",
        Act::Close => "CLOSE",
        Act::ConfirmClosed => "CONFIRM_CLOSED",
        Act::Fence => "FENCE",
        Act::Reassign => "REASSIGN",
        Act::CallAssign | Act::CallClose | Act::CallFence | Act::CallLayout | Act::CallSweep =>
            "CALL",
        Act::Settle | Act::SettleLayout => "SETTLE",
    }
}
