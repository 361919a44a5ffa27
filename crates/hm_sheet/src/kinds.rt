ghost use Rattle.std.specs.Prelude.{◌≡◌};
ghost use Rattle.hm_model.specs.Kinds.{all_kinds as all};
ghost use Rattle.hm_sheet.specs.Own.{is_kind as has};

use crate::rules::is_among;

static KINDS: [u8; 18] = [
    1, 2, 3, 4, 5, 6, 7, 8, 9, 10, 11, 20, 21, 23, 24, 25, 26, 27,
];

/// The kinds of procedures, in their order.
pub fn all_kinds() -> &'static [u8]
    ensures { result.now ≡ all }
{
    &KINDS
}

/// Whether it is a kind of procedures.
pub fn is_kind(kind: u8) -> bool
    ensures { result ≡ has kind }
{
    is_among(all_kinds(), kind)
}
