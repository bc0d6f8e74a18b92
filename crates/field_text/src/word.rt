ghost use Rattle.std.specs.Prelude.{◌≡◌};
ghost use Rattle.std.specs.List.{list_all};
ghost use Rattle.field_text.specs.Word as spec;
ghost use Rattle.field_text.specs.Word.{is_visible};

/// The most bytes of a word.
pub const MAX_WORD_LEN: usize = 64;

/// Returns whether `byte` divides fields or ends a line: a space, TAB, CR or LF.
pub fn is_blank(byte: u8) -> bool
    ensures { result ≡ spec.is_blank byte }
{
    byte == b'\t' || byte == b'\n' || byte == b'\r' || byte == b' '
}

/// Returns whether no byte of `text` is a blank.
fn has_no_blank(text: &[u8]) -> bool
    ensures { result ≡ list_all is_visible text.now }
{
    text.iter().all(|&byte| !is_blank(byte))
}

/// Returns whether `text` can be a user's name or a password: 1 to 64 bytes, none of them a space, TAB, CR or LF.
pub fn is_word(text: &[u8]) -> bool
    ensures { result ≡ spec.is_word text.now }
{
    1 <= text.len() && text.len() <= MAX_WORD_LEN && has_no_blank(text)
}
