ghost use Rattle.std.specs.Prelude.{[], ◌∷◌};

use hm_sheet::{Hands, Kinds};

static KINDS: [u8; 2] = [11, 25];

/// The kinds of crashes and of their calls.
#[derive(Drop)]
pub struct CrashKinds;

impl Kinds for CrashKinds {
    ghost kinds_are = { 11 ∷ 25 ∷ [] };

    fn kinds() -> &'static [u8] {
        &KINDS
    }
}

/// Runs the sheets of crashes and of their calls. Each answer is computed from the sheet and the input alone.
pub type CrashHands = Hands<CrashKinds>;
