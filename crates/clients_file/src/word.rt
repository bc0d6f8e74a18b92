ghost use Rattle.std.specs.Prelude.{◌≡◌};
ghost use Rattle.std.specs.Str.{bytes_eq};
ghost use Rattle.clients_file.specs.Fields.{word_of};

/// The subject of a line.
#[derive(Clone, Copy, Debug, PartialEq, Eq)]
pub(crate) enum Word {
    /// A client and its key.
    Client,
    /// An operator that may send all requests, and its key.
    Operator,
    /// An operator that may send the requests that change nothing, and its key.
    Reader,
    /// An address from which lines are taken plainly.
    Plain,
    /// The number of seconds by which a line's moment may be ahead of the clock.
    Ahead,
    /// The maximum number of failures of a client in a minute.
    Failures,
}

/// Returns whether two texts have the same bytes.
pub(crate) fn is_same(text: &[u8], other: &[u8]) -> bool
    ensures { result ≡ bytes_eq text.now other.now }
{
    text == other
}

/// Returns the subject of a line by its first field, or None if the field is not a word of a clients file.
pub(crate) fn read_word(text: &[u8]) -> Option<Word>
    ensures { result ≡ word_of text.now }
{
    let word = if is_same(text, b"client") {
        Word::Client
    } else if is_same(text, b"operator") {
        Word::Operator
    } else if is_same(text, b"reader") {
        Word::Reader
    } else if is_same(text, b"plain") {
        Word::Plain
    } else if is_same(text, b"ahead") {
        Word::Ahead
    } else if is_same(text, b"failures") {
        Word::Failures
    } else {
        return None;
    };
    Some(word)
}
