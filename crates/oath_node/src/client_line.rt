use std::fmt;
use std::marker::Model;

/// A client's line: the client's number, the time of its arrival in seconds since 1970-01-01 00:00:00 UTC, and its
/// bytes.
#[derive(Drop)]
pub struct ClientLine<'a> {
    pub client: u64,
    pub moment: u64,
    pub line: &'a [u8],
}

impl<'a> Model for ClientLine<'a> {
    ghost use Rattle.oath_node.specs.ReferenceServer.{Line};

    ghost Value = { Line };

    ghost view = { λ line. record { client = line.client; moment = line.moment; text = line.line.now } };
}

/// Shows no byte of the line, because it may have codes and a password.
impl<'a> fmt::Debug for ClientLine<'a> {
    fn fmt<W: fmt::Write>(&self, f: &mut fmt::Formatter<W>) -> fmt::Result {
        f.debug_struct("ClientLine")
            .field("client", &self.client)
            .field("moment", &self.moment)
            .finish_non_exhaustive()
    }
}
