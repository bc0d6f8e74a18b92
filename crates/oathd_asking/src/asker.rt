//! An operator's socket, which sends sealed requests and opens the reports.

ghost use Rattle.std.specs.Prelude.{◌≡◌, ◌<◌, ◌≤◌, ◌*◌, IfErr, IfOk, IfSome, map};
ghost use Rattle.oathd_asking.specs.Fault.{IsOfSocket};
ghost use Rattle.oathd_asking.specs.Asked.{asked_of};
ghost use Rattle.oathd_asking.specs.declared.fault.AskFault.TheVariants.{NoClock, Socket};

use crate::fault::AskFault;
use crate::sent::{MAX_SENDINGS, Sent};
use otp_core::MOMENTS_END;
use sealed_wire::MAX_REPORT_LEN;
use std::net::{Ipv4Addr, Net, SocketAddr, SocketAddrV4, UdpSocket};
use std::time::{Clock as TimeSource, Duration};

/// The number of milliseconds for which a report is awaited.
const WAIT_MILLIS: u64 = 1000;

/// The maximum number of datagrams that are received between two sendings.
const MAX_HEARD: u32 = 65_536;

/// The number of microseconds of a second.
const MICROS: u64 = 1_000_000;

/// Returns the current time in microseconds since 1970-01-01 00:00:00 UTC, or None if the clock fails.
fn micros_of<T: TimeSource>(source: &T) -> Option<u64> {
    let now = source.since_1970().ok()?;
    if now.as_secs() >= MOMENTS_END {
        return None;
    }
    Some(now.as_secs() * MICROS + u64::from(now.subsec_micros()))
}

/// Returns the current moment of a monotonic clock, in milliseconds since its start, or None if it fails.
fn millis_of<T: TimeSource>(source: &T) -> Option<u64> {
    let now = source.monotonic().ok()?;
    if now.as_secs() >= MOMENTS_END {
        return None;
    }
    Some(now.as_secs() * 1000 + u64::from(now.subsec_millis()))
}

/// An operator's socket.
#[derive(Drop)]
pub struct Asker<'n, N: Net + TimeSource> {
    outside: &'n N,
    socket: UdpSocket,
    /// The moment of the last request.
    last: u64,
}

impl<'n, N: Net + TimeSource> Asker<'n, N> {
    /// Returns an operator's socket at a free port.
    ///
    /// # Errors
    /// Returns `Socket` if no socket can be bound.
    pub fn new<'a>(outside: &'n N) -> Result<Self, AskFault<'a>>
        ensures { IfErr result (λ fault. fault ≡ Socket) }
    {
        let any = SocketAddr::V4(SocketAddrV4::new(Ipv4Addr::UNSPECIFIED, 0));
        match UdpSocket::bind(outside, any) {
            Ok(socket) => Ok(Asker {
                outside,
                socket,
                last: 0,
            }),
            Err(_) => Err(AskFault::Socket),
        }
    }

    /// Returns the moment of the next request, which is later than the last one, or None if the clock fails.
    fn next_moment(&mut self) -> Option<u64>
        ensures { IfSome result (λ moment. (self.old.last < moment) × (self.new.last ≡ moment)) }
    {
        let now = micros_of(self.outside)?;
        self.last = now.max(self.last.checked_add(1)?);
        Some(self.last)
    }

    /// Seals a request anew and sends it, if it has no report yet. A failure of the sending is like a lost datagram.
    fn send<'a>(&mut self, sent: &mut Sent<'_>) -> Result<(), AskFault<'a>>
        ensures same { asked_of sent.new ≡ asked_of sent.old }
        ensures fault { IfErr result (λ fault. fault ≡ NoClock) }
    {
        if sent.is_answered() {
            return Ok(());
        }
        let Some(moment) = self.next_moment() else {
            return Err(AskFault::NoClock);
        };
        let bytes = sent.seal(moment);
        let _taken = self.socket.send_to(&bytes, SocketAddr::V4(sent.address()));
        Ok(())
    }

    /// Seals all requests anew that have no report yet, and sends them.
    fn send_all<'a>(&mut self, all: &mut [Sent<'_>]) -> Result<(), AskFault<'a>>
        ensures same { map asked_of all.new ≡ map asked_of all.old }
        ensures fault { IfErr result (λ fault. fault ≡ NoClock) }
    {
        for sent in all.iter_mut() {
            self.send(sent)?;
        }
        Ok(())
    }

    /// Receives a datagram within `millis` milliseconds. Returns its length, or None if none came.
    fn hear<'a>(
        &self,
        millis: u64,
        buffer: &mut [u8; MAX_REPORT_LEN],
    ) -> Result<Option<usize>, AskFault<'a>>
        ensures len { IfOk result (λ heard. IfSome heard (λ len. len ≤ 1071)) }
        ensures fault { IfErr result (λ fault. fault ≡ Socket) }
    {
        if self
            .socket
            .set_read_timeout(Some(Duration::from_millis(millis)))
            .is_err()
        {
            return Err(AskFault::Socket);
        }
        match self.socket.recv_from(buffer.as_mut_slice()) {
            Ok((len, _)) => Ok(Some(len)),
            Err(_) => Ok(None),
        }
    }

    /// Receives for a second, or until all requests have their reports. A flood of datagrams ends it too.
    fn hear_all<'a>(&self, all: &mut [Sent<'_>]) -> Result<(), AskFault<'a>>
        ensures same { map asked_of all.new ≡ map asked_of all.old }
        ensures fault { IfErr result IsOfSocket }
    {
        let mut buffer = [0; MAX_REPORT_LEN];
        let Some(begin) = millis_of(self.outside) else {
            return Err(AskFault::NoClock);
        };
        for _ in 0..MAX_HEARD {
            let Some(now) = millis_of(self.outside) else {
                return Err(AskFault::NoClock);
            };
            let gone = now.saturating_sub(begin);
            if gone >= WAIT_MILLIS || are_answered(all) {
                return Ok(());
            }
            if let Some(len) = self.hear(WAIT_MILLIS - gone, &mut buffer)? {
                take(all, &buffer[..len]);
            }
        }
        Ok(())
    }

    /// Waits for a second. A flood of datagrams ends it too. What comes meanwhile is dropped.
    ///
    /// # Errors
    /// - Returns `NoClock` if the clock tells no time.
    /// - Returns `Socket` if the socket fails.
    pub(crate) fn pause<'a>(&self) -> Result<(), AskFault<'a>>
        ensures { IfErr result IsOfSocket }
    {
        let mut buffer = [0; MAX_REPORT_LEN];
        let Some(begin) = millis_of(self.outside) else {
            return Err(AskFault::NoClock);
        };
        for _ in 0..MAX_HEARD {
            let Some(now) = millis_of(self.outside) else {
                return Err(AskFault::NoClock);
            };
            let gone = now.saturating_sub(begin);
            if gone >= WAIT_MILLIS {
                return Ok(());
            }
            let _heard = self.hear(WAIT_MILLIS - gone, &mut buffer)?;
        }
        Ok(())
    }

    /// Sends each request, and receives the reports. A request without a report is sent again after a second, or after
    /// 65,536 datagrams, at most three times in all.
    ///
    /// # Errors
    /// - Returns `NoClock` if the clock tells no time.
    /// - Returns `Socket` if the socket fails.
    pub(crate) fn exchange<'a>(&mut self, all: &mut [Sent<'_>]) -> Result<(), AskFault<'a>>
        ensures same { map asked_of all.new ≡ map asked_of all.old }
        ensures fault { IfErr result IsOfSocket }
    {
        for _ in 0..MAX_SENDINGS {
            if are_answered(all) {
                return Ok(());
            }
            self.send_all(all)?;
            self.hear_all(all)?;
        }
        Ok(())
    }
}

/// Returns whether each request has its report.
fn are_answered(all: &[Sent<'_>]) -> bool {
    all.iter().all(|sent| sent.is_answered())
}

/// Gives a datagram to the request whose report it is.
fn take(all: &mut [Sent<'_>], bytes: &[u8])
    ensures { map asked_of all.new ≡ map asked_of all.old }
{
    for sent in all.iter_mut() {
        sent.take(bytes);
    }
}
