//! Reports.
ghost use Rattle.std.specs.Prelude.{◌≡◌, ◌≢◌, ◌↔◌, IfErr, IsTrue, None, OnOk, Some};
ghost use Rattle.hm_data.specs.declared.entry.Entry.TheVariants as entry_is;
ghost use Rattle.hm_model.specs.Base.{IsBegun};
ghost use Rattle.hm_model.specs.Reports.{peer_in, peer_of, verb_of};
ghost use Rattle.hm_model.specs.Rules.{Allowed};
ghost use Rattle.hm_refusals.specs.Reports.{IsHeard, IsIgnored};

use hm_data::{Args, Peer, ReportMsg};
use hm_judge::fits_call;
use hm_names::{Pid, Same};
use hm_records::Records;
use thiserror::Error;

/// Why a report is ignored.
#[derive(Clone, Copy, Debug, PartialEq, Eq, Error)]
pub enum IgnoredWhy {
    /// There is no such call.
    #[error("unknown")]
    Unknown,
    /// The call went to another peer.
    #[error("wrong peer")]
    WrongPeer,
    /// The answer doesn't fit what was asked.
    #[error("wrong answer")]
    WrongTold,
    /// A report of it is recorded, or its procedure has ended.
    #[error("settled")]
    Settled,
}

// Whether it is the one whom a procedure that works on this calls.
fn is_peer(args: &Args, from: &Peer) -> bool
    ensures { IsTrue result ↔ (peer_in args.now ≡ from.now) }
{
    match args {
        Args::AssignCall { region: _, server } | Args::CloseCall { region: _, server } => {
            matches!(from, Peer::Server(other) if server.same(other))
        }
        _ => matches!(from, Peer::Storage),
    }
}

// Whether a call, which is recorded, went to this one.
fn comes_from(records: &Records, call: Pid, from: &Peer) -> bool
    requires { verb_of records.now.past call.0 ≢ None }
    ensures { IsTrue result ↔ (peer_of records.now.past call.0 ≡ Some from.now) }
{
    match records.procedures().find(call) {
        Some(found) => is_peer(&found.args, from),
        None => false,
    }
}

/// Judges a report by what the journal says: whether there is such a call, whether the report comes from the one who was called,
/// whether its answer fits, and whether it is the first.
pub fn judge_report(records: &Records, message: &ReportMsg) -> Result<(), IgnoredWhy>
    requires begun { IsBegun records.now.past }
    ensures ignored { IfErr result (IsIgnored records.now.past message.now) }
    ensures heard { OnOk result (IsHeard records.now.past message.now) }
    ensures allowed { OnOk result (Allowed records.now.past (entry_is.Report message.now.call message.now.told)) }
{
    if !records.procedures().has_called(message.call) {
        return Err(IgnoredWhy::Unknown);
    }
    if !comes_from(records, message.call, &message.from) {
        return Err(IgnoredWhy::WrongPeer);
    }
    if !fits_call(records, message.call, message.told) {
        return Err(IgnoredWhy::WrongTold);
    }
    if records.procedures().is_settled(message.call) {
        return Err(IgnoredWhy::Settled);
    }
    Ok(())
}
