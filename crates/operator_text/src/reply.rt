//! The replies to requests that no page answers.

ghost use Rattle.std.specs.Prelude.{◌≡◌, ◌≤◌, length};
ghost use Rattle.operator_text.specs.Reply as spec;

/// A reply to a request that no page answers.
#[derive(Clone, Copy, Debug, PartialEq, Eq)]
pub enum Reply {
    /// The node doesn't know the request.
    NoRequest,
    /// The key has no right to the request.
    NoRight,
    /// The node has no such report now. A report begins with its line 0.
    NoReport,
    /// No token has this user.
    NoUser,
    /// The requests of readers used up their time. The same request may be asked again later.
    Busy,
    /// The gate of the user's token is open.
    Unlocked,
    /// The node ends when no line waits.
    Draining,
}

/// Returns the text of a reply, with its LF. It is no page.
pub fn write_reply(reply: Reply) -> &'static [u8]
    ensures text { result.now ≡ spec.reply_text reply }
    ensures len { length result.now ≤ 11 }
{
    match reply {
        Reply::NoRequest => b"NO REQUEST\n",
        Reply::NoRight => b"NO RIGHT\n",
        Reply::NoReport => b"NO REPORT\n",
        Reply::NoUser => b"NO USER\n",
        Reply::Busy => b"NO BUSY\n",
        Reply::Unlocked => b"unlocked\n",
        Reply::Draining => b"draining\n",
    }
}

/// Returns the reply of a text, or None if the text is none.
pub fn read_reply(text: &[u8]) -> Option<Reply>
    ensures { result ≡ spec.reply_at text.now }
{
    if text == b"NO REQUEST\n".as_slice() {
        Some(Reply::NoRequest)
    } else if text == b"NO RIGHT\n".as_slice() {
        Some(Reply::NoRight)
    } else if text == b"NO REPORT\n".as_slice() {
        Some(Reply::NoReport)
    } else if text == b"NO USER\n".as_slice() {
        Some(Reply::NoUser)
    } else if text == b"NO BUSY\n".as_slice() {
        Some(Reply::Busy)
    } else if text == b"unlocked\n".as_slice() {
        Some(Reply::Unlocked)
    } else if text == b"draining\n".as_slice() {
        Some(Reply::Draining)
    } else {
        None
    }
}
