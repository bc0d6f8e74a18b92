//! What a port that joins datagrams tells a log of the datagrams that it passed over: what the port below tells.

use crate::port::BundlePort;
use gatekeeping::{Fell, Gatekeeper, Older, PLACES};
use sealed_port::{SetAside, Unopened};

impl<P: Gatekeeper + Drop> Gatekeeper for BundlePort<P> {
    ghost unopened = { λ bundles. P.unopened bundles.port };

    ghost older = { λ bundles. P.older bundles.port };

    ghost fell = { λ bundles. P.fell bundles.port };

    ghost gone_back = { λ bundles. P.gone_back bundles.port };

    ghost heard = { λ bundles. P.heard bundles.port };

    ghost opened = { λ bundles. P.opened bundles.port };

    ghost differing = { λ bundles. P.differing bundles.port };

    ghost aside = { λ bundles. P.aside bundles.port };

    ghost below = { λ bundles. P.below bundles.port };

    ghost reported = { λ bundles. P.reported bundles.port };

    fn take_unopened(&mut self) -> Unopened {
        self.port.take_unopened()
    }

    fn take_older(&mut self) -> Option<Older> {
        self.port.take_older()
    }

    fn take_fell(&mut self) -> Option<Fell> {
        self.port.take_fell()
    }

    fn gone_back(&self) -> [bool; PLACES] {
        self.port.gone_back()
    }

    fn heard(&self) -> [u64; PLACES] {
        self.port.heard()
    }

    fn opened(&self) -> u64 {
        self.port.opened()
    }

    fn take_differing(&mut self) -> [bool; PLACES] {
        self.port.take_differing()
    }

    fn take_request(&mut self) -> Option<SetAside> {
        self.port.take_request()
    }

    fn drain(&mut self) {
        self.port.drain();
    }

    fn report(&mut self, request: &SetAside, page: &[u8]) -> bool {
        self.port.report(request, page)
    }

    fn flush(&mut self) {
        self.flush_all();
    }
}
