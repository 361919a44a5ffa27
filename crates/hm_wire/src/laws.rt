//! What holds of every field, as functions that do nothing: each contract is a law.
ghost use Rattle.std.specs.Prelude.{◌≡◌, ℕ, ◌+◌, ◌≤◌, ◌<◌, ◌^◌, List, ◌++◌, length, Ok};
ghost use Rattle.byteorder.specs.Endian.{little_number, little_bytes};
ghost use Rattle.hm_wire.specs.Input.{Input};
ghost use Rattle.hm_wire.specs.Laws.{IsBytes};
ghost use Rattle.hm_wire.specs.Wire.{number_at, text_at, text, Takes};

/// Two byte strings of one length and one value are equal.
pub fn one_spelling()
    ensures { (xs ys : List ℕ) → IsBytes xs → IsBytes ys → length xs ≡ length ys
        → little_number (length xs) xs ≡ little_number (length ys) ys → xs ≡ ys }
{}

/// A number that was read was spelled so.
pub fn number_was_spelled()
    ensures spelled { (n : ℕ) (i : Input) (x : ℕ) (j : Input) → IsBytes i.rest
        → number_at n i ≡ Ok (x, j) → Takes i (little_bytes n x) j }
    ensures fits { (n : ℕ) (i : Input) (x : ℕ) (j : Input) → IsBytes i.rest
        → number_at n i ≡ Ok (x, j) → x < 256 ^ n }
{}

/// A number that is spelled so is read, whatever follows.
pub fn number_reads_back()
    ensures { (n x at : ℕ) (more : List ℕ) → x < 256 ^ n
        → number_at n (record { at = at; rest = little_bytes n x ++ more })
        ≡ Ok (x, record { at = at + n; rest = more }) }
{}

/// A text that was read was spelled so.
pub fn text_was_spelled()
    ensures spelled { (most : ℕ) (i : Input) (s : List ℕ) (j : Input) → IsBytes i.rest
        → text_at most i ≡ Ok (s, j) → Takes i (text s) j }
    ensures short { (most : ℕ) (i : Input) (s : List ℕ) (j : Input)
        → text_at most i ≡ Ok (s, j) → length s ≤ most }
{}

/// A text that is spelled so is read where it may be as long, whatever follows.
pub fn text_reads_back()
    ensures { (most : ℕ) (s : List ℕ) (at : ℕ) (more : List ℕ) → length s ≤ most → length s < 2 ^ 16
        → text_at most (record { at = at; rest = text s ++ more })
        ≡ Ok (s, record { at = at + (2 + length s); rest = more }) }
{}
