ghost use Rattle.std.specs.Prelude.{◌≡◌, ◌==◌, ◌+◌, MatchOption, IfSome, Some, None, length, position, reverse};
ghost use Rattle.hm_names.specs.Cuts.{cut_first as first_cut, cut_last as last_cut};

fn first_place(text: &[u8], separator: u8) -> Option<usize>
    ensures { result ≡ position (λ b. b == separator) text.now }
{
    text.iter().position(|b| *b == separator)
}

// The parts of a text round its first separator.
#[tactic(auto, unfolding(crate::specs::Cuts::cut_first))]
pub fn cut_first<'a>(text: &'a [u8], separator: u8) -> Option<(&'a [u8], &'a [u8])>
    ensures parts { MatchOption result
        (first_cut separator text.now ≡ None)
        (λ p. first_cut separator text.now ≡ Some (p.0.now, p.1.now)) }
    ensures whole { IfSome result (λ p. length p.0.now + 1 + length p.1.now ≡ length text.now) }
{
    let place = first_place(text, separator)?;
    Some((&text[..place], &text[place + 1..]))
}

fn place_from_end(text: &[u8], separator: u8) -> Option<usize>
    ensures { result ≡ position (λ b. b == separator) (reverse text.now) }
{
    text.iter().rev().position(|b| *b == separator)
}

// The parts of a text round its last separator.
#[tactic(auto, unfolding(crate::specs::Cuts::cut_last))]
pub fn cut_last<'a>(text: &'a [u8], separator: u8) -> Option<(&'a [u8], &'a [u8])>
    ensures parts { MatchOption result
        (last_cut separator text.now ≡ None)
        (λ p. last_cut separator text.now ≡ Some (p.0.now, p.1.now)) }
    ensures whole { IfSome result (λ p. length p.0.now + 1 + length p.1.now ≡ length text.now) }
{
    let behind = place_from_end(text, separator)?;
    let place = text.len() - 1 - behind;
    Some((&text[..place], &text[place + 1..]))
}
