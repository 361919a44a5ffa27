//! What a root of a base may do.
ghost use Rattle.std.specs.Prelude.{◌↔◌, IsTrue};
ghost use Rattle.hm_model.specs.Base.{MayRoot};
ghost use Rattle.hm_model.specs.Requests.{MaySubmit};

use hm_catalog::wrong_in;
use hm_data::{Args, Request};

// Whether nothing is wrong with a request by itself.
fn may_submit(request: &Request) -> bool
    ensures { IsTrue result ↔ MaySubmit request.now }
{
    wrong_in(request).is_none()
}

// Whether a root may do this: a request with which nothing is wrong, a transit, a crash or a sweep.
pub(crate) fn may_root(args: &Args) -> bool
    ensures { IsTrue result ↔ MayRoot args.now }
{
    match args {
        Args::Root { request, first: _ } => may_submit(request),
        Args::Transit { .. } | Args::Crash { .. } | Args::SweepLayout { .. } => true,
        _ => false,
    }
}
