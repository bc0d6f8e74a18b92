ghost use Rattle.std.specs.Prelude.{◌≡◌};
ghost use Rattle.std.specs.Str.{bytes_eq};
ghost use Rattle.cluster_file.specs.Fields.{word_of};

/// The subject of a line.
#[derive(Clone, Copy, Debug, PartialEq, Eq)]
pub(crate) enum Word {
    /// A member and its address.
    Member,
    /// The number of factors above the floor (the first free factor) that a check may take.
    LookAhead,
    /// The number of time steps before and after the current one that a check may take.
    Skew,
    /// The number of factors above the floor that a resynchronization may take.
    Range,
    /// The number of time steps by which a clock may have drifted.
    Drift,
    /// The path of the key.
    KeyFile,
    /// The key.
    Key,
    /// The life of the databases.
    Life,
    /// The salt of the tokens' names.
    Names,
    /// How a node takes a token that it hasn't served.
    NewTokens,
}

/// Returns whether two words have the same bytes.
fn is_same(word: &[u8], other: &[u8]) -> bool
    ensures { result ≡ bytes_eq word.now other.now }
{
    word == other
}

/// Returns the subject of a line by its first field, or None if the field is not a word of a cluster file.
pub(crate) fn read_word(text: &[u8]) -> Option<Word>
    ensures { result ≡ word_of text.now }
{
    let word = if is_same(text, b"member") {
        Word::Member
    } else if is_same(text, b"look-ahead") {
        Word::LookAhead
    } else if is_same(text, b"skew") {
        Word::Skew
    } else if is_same(text, b"range") {
        Word::Range
    } else if is_same(text, b"drift") {
        Word::Drift
    } else if is_same(text, b"key-file") {
        Word::KeyFile
    } else if is_same(text, b"key") {
        Word::Key
    } else if is_same(text, b"life") {
        Word::Life
    } else if is_same(text, b"names") {
        Word::Names
    } else if is_same(text, b"new-tokens") {
        Word::NewTokens
    } else {
        return None;
    };
    Some(word)
}
