ghost use Rattle.std.specs.Prelude.{[], ◌∷◌};

use hm_sheet::{Hands, Kinds};

static KINDS: [u8; 2] = [8, 9];

/// The kinds that split and merge regions.
#[derive(Drop)]
pub struct SplitKinds;

impl Kinds for SplitKinds {
    ghost kinds_are = { 8 ∷ 9 ∷ [] };

    fn kinds() -> &'static [u8] {
        &KINDS
    }
}

/// Runs the sheets that split and merge regions. Each answer is computed from the sheet and the input alone.
pub type SplitHands = Hands<SplitKinds>;
