ghost use Rattle.std.specs.Prelude.{[], ◌∷◌};

use hm_sheet::{Hands, Kinds};

static KINDS: [u8; 11] = [1, 2, 3, 4, 5, 6, 7, 20, 21, 26, 27];

/// The kinds of requests for namespaces and tables, and of the adding, removing and laying out of their regions.
#[derive(Drop)]
pub struct TableKinds;

impl Kinds for TableKinds {
    ghost kinds_are = { 1 ∷ 2 ∷ 3 ∷ 4 ∷ 5 ∷ 6 ∷ 7 ∷ 20 ∷ 21 ∷ 26 ∷ 27 ∷ [] };

    fn kinds() -> &'static [u8] {
        &KINDS
    }
}

/// Runs the sheets of requests for namespaces and tables, and of the adding, removing and laying out of their regions. Each answer is computed from the sheet and the input alone.
pub type TableHands = Hands<TableKinds>;
