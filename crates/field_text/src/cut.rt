ghost use Rattle.std.specs.Prelude.{◌≡◌, ◌<◌, ◌==◌, ◌∷◌, [], length, position, IfSome, IfNone};
ghost use Rattle.std.specs.List.{slice_split};
ghost use Rattle.std.specs.Option.{option_map};
ghost use Rattle.field_text.specs.Cut.{halves_of};

/// Returns the place of the first `mark`, or None if there is none.
fn place_of(text: &[u8], mark: u8) -> Option<usize>
    ensures place { result ≡ position (λ b. b == mark) text.now }
    ensures within { IfSome result (λ place. place < length text.now) }
{
    text.iter().position(|&byte| byte == mark)
}

/// Returns the parts before and after the first `mark`, or None if there is none.
pub fn cut_at(text: &[u8], mark: u8) -> Option<(&[u8], &[u8])>
    ensures halves { option_map (λ x. record { before = x.0.now; behind = x.1.now }) result ≡ halves_of mark text.now }
    ensures some { IfSome result (λ x. slice_split (λ b. b == mark) text.now
        ≡ x.0.now ∷ slice_split (λ b. b == mark) x.1.now) }
    ensures shorter { IfSome result (λ x. length x.1.now < length text.now) }
    ensures none { IfNone result (slice_split (λ b. b == mark) text.now ≡ text.now ∷ []) }
{
    let place = place_of(text, mark)?;
    Some((&text[..place], &text[place + 1..]))
}
