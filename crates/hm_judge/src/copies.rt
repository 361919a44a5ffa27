//! Copies of what may be there.
ghost use Rattle.std.specs.Prelude.{◌≡◌, IfOk, Ok};
ghost use Rattle.std.specs.Option.{option_copied};

use hm_data::Place;
use hm_names::{Copied, ServerName};
use std::alloc::{AllocError, Global};

/// What took memory, with a value beside it.
pub(crate) fn beside<T: Drop, U: Drop>(
    taken: Result<T, AllocError>,
    value: U,
) -> Result<(T, U), AllocError>
    ensures { IfOk result (λ pair. (taken ≡ Ok pair.0) × (pair.1 ≡ value)) }
{
    Ok((taken?, value))
}

/// A copy of a place, if it is there.
pub(crate) fn copy_place(alloc: Global, place: Option<&Place>) -> Result<Option<Place>, AllocError>
    ensures { IfOk result (λ copy. copy ≡ option_copied place.entry) }
{
    match place {
        Some(place) => Ok(Some(place.copy(alloc)?)),
        None => Ok(None),
    }
}

/// A copy of a server, if it is there.
pub(crate) fn copy_server(
    alloc: Global,
    server: Option<&ServerName>,
) -> Result<Option<ServerName>, AllocError>
    ensures { IfOk result (λ copy. copy ≡ option_copied server.entry) }
{
    match server {
        Some(server) => Ok(Some(server.copy(alloc)?)),
        None => Ok(None),
    }
}
