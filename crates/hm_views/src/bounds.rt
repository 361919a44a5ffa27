// The bounds of the regions that a procedure adds.
ghost use Rattle.std.specs.Prelude.{◌≡◌, ◌<◌, ◌^◌, ◌++◌, [], ◌∷◌, IfOk, IfSome, length};
ghost use Rattle.std.specs.Option.{option_map};
ghost use Rattle.hm_model.specs.Views.{bounds_of as bounds_in};

use crate::pieces::key_copies;
use hm_data::{Args, Request};
use hm_names::{Copied, RowKey};
use std::alloc::{AllocError, Global};

// The key that stands for the open end.
fn open_end(alloc: Global) -> Result<RowKey, AllocError>
    ensures { IfOk result (λ key. key ≡ []) }
{
    let Ok(key) = RowKey::of(alloc, &[]) else {
        return Err(AllocError);
    };
    Ok(key)
}

// The bounds of a table's regions that is split at keys.
fn bounds_at(alloc: Global, keys: &[RowKey]) -> Result<Vec<RowKey>, AllocError>
    ensures { IfOk result (λ v. v.items ≡ [] ∷ keys.now ++ [] ∷ []) }
{
    let mut bounds = Vec::new(alloc);
    bounds.push(open_end(alloc)?)?;
    for key in keys {
        bounds.push(key.copy(alloc)?)?;
    }
    bounds.push(open_end(alloc)?)?;
    Ok(bounds)
}

/// The bounds of the regions that a procedure adds: one more than there are regions.
pub fn bounds_of(alloc: Global, args: &Args) -> Result<Option<Vec<RowKey>>, AllocError>
    ensures { IfOk result (λ bounds. option_map (λ v. v.items) bounds ≡ bounds_in args.now) }
{
    match args {
        Args::Root {
            request: Request::CreateTable { table: _, keys },
            first: _,
        } => Ok(Some(bounds_at(alloc, keys.as_slice())?)),
        Args::AddRegions {
            table: _,
            first: _,
            bounds,
        } => Ok(Some(key_copies(alloc, bounds.as_slice())?)),
        _ => Ok(None),
    }
}

/// How many bounds those are.
pub fn count_of_bounds(args: &Args) -> Option<usize>
    ensures count { result ≡ option_map length (bounds_in args.now) }
    ensures few { IfSome result (λ count. count < 2 ^ 63) }
{
    match args {
        Args::Root {
            request: Request::CreateTable { table: _, keys },
            first: _,
        } => Some(keys.as_slice().len() + 2),
        Args::AddRegions {
            table: _,
            first: _,
            bounds,
        } => Some(bounds.as_slice().len()),
        _ => None,
    }
}
