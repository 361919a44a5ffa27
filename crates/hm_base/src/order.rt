//! The order of parts.
ghost use Rattle.std.specs.Prelude.{◌≡◌};
ghost use Rattle.hm_model.specs.Base.{part_rank, rises as comes_before};

use hm_data::Part;
use hm_names::laws::names_order_by_parts;

// The place of a part's sort among the sorts.
fn rank(part: &Part) -> u8
    ensures { result ≡ part_rank part.now }
{
    match part {
        Part::Head { .. } => 0,
        Part::Namespace { .. } => 1,
        Part::Table { .. } => 2,
        Part::Region { .. } => 3,
        Part::Server { .. } => 4,
        Part::Root { .. } => 5,
        Part::Layout { .. } => 6,
    }
}

// Whether a part comes before another: by their sorts, and within a sort by key.
pub(crate) fn rises(one: &Part, part: &Part) -> bool
    ensures { result ≡ comes_before one.now part.now }
{
    names_order_by_parts();
    match (one, part) {
        (Part::Namespace { ns: one }, Part::Namespace { ns }) => one < ns,
        (Part::Table { table: one, .. }, Part::Table { table, .. }) => one < table,
        (Part::Region { region: one, .. }, Part::Region { region, .. }) => one < region,
        (Part::Server { server: one, .. }, Part::Server { server, .. }) => one < server,
        (Part::Root { pid: one, .. }, Part::Root { pid, .. }) => one < pid,
        (Part::Layout { pid: one }, Part::Layout { pid }) => one < pid,
        _ => rank(one) < rank(part),
    }
}
