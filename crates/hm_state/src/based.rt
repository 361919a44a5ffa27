//! How many entries a base stands for.
ghost use Rattle.std.specs.Prelude.{◌≡◌, ◌≤◌, ◌^◌};
ghost use Rattle.hm_model.specs.Image.{counted, part_counted};
ghost use Rattle.hm_model.specs.Rebase.{based};
ghost use Rattle.hm_model.specs.Rules.{IsLegal};

use hm_data::Part;

// How many entries a part says were recorded: what a head says, and otherwise none.
fn said_by(part: &Part) -> u64
    ensures { result ≡ part_counted part.now 0 }
{
    match part {
        Part::Head { entries, .. } => *entries,
        _ => 0,
    }
}

// How many entries a base of these parts stands for: what its head says.
pub(crate) fn entries_in(parts: &[Part]) -> u64
    requires { IsLegal (based parts.now) }
    ensures count { result ≡ counted (based parts.now) }
    ensures few { result ≤ 2 ^ 48 }
{
    match parts.first() {
        Some(first) => said_by(first),
        None => 0,
    }
}
