//! What a port by names tells a log of the datagrams that it passed over.

use crate::port::NamedPort;
use gatekeeping::{Fell, Gatekeeper, Older, PLACES};
use sealed_port::{SetAside, Unopened};

impl<P: Gatekeeper + Drop> Gatekeeper for NamedPort<'_, P> {
    ghost unopened = { λ named. P.unopened named.port };

    ghost older = { λ named. named.translator.older };

    ghost fell = { λ named. P.fell named.port };

    ghost gone_back = { λ named. P.gone_back named.port };

    ghost heard = { λ named. named.translator.heard };

    ghost opened = { λ named. P.opened named.port };

    ghost differing = { λ named. named.translator.differing };

    ghost aside = { λ named. P.aside named.port };

    ghost below = { λ named. P.below named.port };

    ghost reported = { λ named. P.reported named.port };

    fn take_unopened(&mut self) -> Unopened {
        self.port.take_unopened()
    }

    fn take_older(&mut self) -> Option<Older> {
        NamedPort::take_older(self)
    }

    fn take_fell(&mut self) -> Option<Fell> {
        self.port.take_fell()
    }

    fn gone_back(&self) -> [bool; PLACES] {
        self.port.gone_back()
    }

    fn heard(&self) -> [u64; PLACES] {
        NamedPort::heard(self)
    }

    fn opened(&self) -> u64 {
        self.port.opened()
    }

    fn take_differing(&mut self) -> [bool; PLACES] {
        NamedPort::take_differing(self)
    }

    fn take_request(&mut self) -> Option<SetAside> {
        self.port.take_request()
    }

    fn drain(&mut self) {
        self.port.drain();
    }

    fn report(&mut self, request: &SetAside, page: &[u8]) -> bool {
        self.port.report(request, page)
    }

    fn flush(&mut self) {
        self.port.flush();
    }
}
