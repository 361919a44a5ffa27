//! What will be enlisted.
ghost use Rattle.std.specs.Prelude.{◌≡◌, ℕ, List, map, IfOk};
ghost use Rattle.hm_model.specs.declared.lock.Ask.{Ask as AskOf};
ghost use Rattle.hm_locks.specs.Kept.{claim_of};
ghost use Rattle.hm_locks.specs.declared.draft.Claim.{Claim as ClaimOf};

use crate::key::Key;
use hm_model::Ask;
use hm_names::List;
use std::alloc::{AllocError, Global};
use std::marker::Model;

// An ask, by the key of its resource.
#[derive(Drop)]
pub(crate) struct Claim {
    pub(crate) key: Key,
    pub(crate) exclusive: bool,
}

/// What will be enlisted of a procedure, in memory of its own. Contracts see its ancestors and what it asks for.
#[derive(Drop)]
pub struct Draft {
    // Its ancestors, from its parent up.
    above: List<u64>,
    asked: List<Ask>,
    claims: Vec<Claim>,
}

impl Model for Draft {
    ghost use Rattle.std.specs.Prelude.{◌≡◌, map};
    ghost use Rattle.hm_locks.specs.Book.{DraftView};
    ghost use Rattle.hm_locks.specs.Kept.{claim_of};

    ghost Value = { DraftView };

    ghost view = { λ s. record { above = s.above; asks = s.asked } };

    ghost invariant = { λ s. s.claims.items ≡ map claim_of s.asked };
}

// The claims of asks, in their order.
fn claims_of(alloc: Global, asked: &[Ask]) -> Result<Vec<Claim>, AllocError>
    ensures { IfOk result (λ claims. claims.items ≡ map claim_of asked.now) }
{
    let mut claims = Vec::new(alloc);
    for ask in asked {
        claims.push(Claim {
            key: Key::of(alloc, &ask.resource)?,
            exclusive: ask.exclusive,
        })?;
    }
    Ok(claims)
}

impl Draft {
    // Of these ancestors, with these asks.
    pub(crate) fn new(
        alloc: Global,
        above: List<u64>,
        asked: List<Ask>,
    ) -> Result<Draft, AllocError>
        ensures above { IfOk result (λ draft. draft.above ≡ above) }
        ensures asks { IfOk result (λ draft. draft.asks ≡ asked) }
    {
        let claims = claims_of(alloc, asked.as_slice())?;
        Ok(Draft {
            above,
            asked,
            claims,
        })
    }

    /// What it asks for.
    pub fn asks(&self) -> &[Ask]
        ensures { result.now ≡ self.now.asks }
    {
        self.asked.as_slice()
    }

    // Its ancestors, what it asks for, and the claims of that.
    pub(crate) fn into_parts(self) -> (List<u64>, List<Ask>, Vec<Claim>)
        ensures above { result.0 ≡ self.above }
        ensures asks { result.1 ≡ self.asks }
        ensures claims { let claims = result.2 in claims.items ≡ map claim_of self.asks }
    {
        (self.above, self.asked, self.claims)
    }
}
