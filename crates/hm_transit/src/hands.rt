ghost use Rattle.std.specs.Prelude.{[], ◌∷◌};

use hm_sheet::{Hands, Kinds};

static KINDS: [u8; 3] = [10, 23, 24];

/// The kinds of transits and of their calls.
#[derive(Drop)]
pub struct TransitKinds;

impl Kinds for TransitKinds {
    ghost kinds_are = { 10 ∷ 23 ∷ 24 ∷ [] };

    fn kinds() -> &'static [u8] {
        &KINDS
    }
}

/// Runs the sheets of transits and of their calls. Each answer is computed from the sheet and the input alone.
pub type TransitHands = Hands<TransitKinds>;
