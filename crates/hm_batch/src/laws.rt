//! Laws of the pieces.
ghost use Rattle.std.specs.Prelude.{◌≡◌, ◌≤◌, List, ℕ, All, length};
ghost use Rattle.hm_log.specs.Format.{IsFrame};
ghost use Rattle.hm_batch.specs.Pieces.{bytes_of, pieces_of, in_order, IsPiece, AreFull};

/// The pieces of frames have these frames in their order, none is empty or has more than 65,541 bytes, and
/// each has as many of the next frames as fit.
pub fn pieces_are_full()
    ensures all { (frames : List (List ℕ)) → in_order (pieces_of frames) ≡ frames }
    ensures each { (frames : List (List ℕ)) → All IsFrame frames → All IsPiece (pieces_of frames) }
    ensures within { (frames : List (List ℕ)) → All IsFrame frames →
        All (λ piece. bytes_of piece ≤ 65541) (pieces_of frames) }
    ensures full { (frames : List (List ℕ)) → AreFull (pieces_of frames) }
{}
