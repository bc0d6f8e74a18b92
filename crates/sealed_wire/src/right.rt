//! The right of a key to send requests.

/// The right of a key to send requests to nodes.
#[derive(Clone, Copy, Debug, Default, PartialEq, Eq)]
pub enum Right {
    /// An operator may send all requests.
    Operator,
    /// A reader may send the requests that change nothing.
    #[default]
    Reader,
}
