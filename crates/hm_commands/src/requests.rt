//! Commands that submit.
ghost use Rattle.std.specs.Prelude.{◌≡◌, MatchResult, None, Some};
ghost use Rattle.hm_commands.specs.Commands.{asked};

use hm_data::Request;
use hm_names::Nonce;
use hm_script::Command;

/// What a command that submits asks for, and under which nonce. Another command is given back.
pub(crate) fn into_request(command: Command) -> Result<(Nonce, Request), Command>
    ensures { MatchResult result
        (λ ask. asked command ≡ Some ask)
        (λ other. (other ≡ command) × (asked command ≡ None)) }
{
    match command {
        Command::Namespace { nonce, ns } => Ok((nonce, Request::CreateNamespace { ns })),
        Command::DropNamespace { nonce, ns } => Ok((nonce, Request::DropNamespace { ns })),
        Command::Create { nonce, table, keys } => Ok((nonce, Request::CreateTable { table, keys })),
        Command::Delete { nonce, table } => Ok((nonce, Request::DeleteTable { table })),
        Command::Enable { nonce, table } => Ok((nonce, Request::EnableTable { table })),
        Command::Disable { nonce, table } => Ok((nonce, Request::DisableTable { table })),
        Command::Modify {
            nonce,
            table,
            version,
        } => Ok((nonce, Request::ModifyTable { table, version })),
        Command::Split { nonce, region, key } => Ok((nonce, Request::SplitRegion { region, key })),
        Command::Merge { nonce, regions } => Ok((nonce, Request::MergeRegions { regions })),
        Command::Move { nonce, region, to } => Ok((nonce, Request::Move { region, to })),
        other => Err(other),
    }
}
