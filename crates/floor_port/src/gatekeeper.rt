//! What a port that tells floors tells a log of the datagrams that it passed over: the falls that it saw, and what the
//! port below tells.

use crate::port::FloorPort;
use gatekeeping::{Fell, Gatekeeper, Older, PLACES};
use sealed_port::{SetAside, Unopened};

impl<P: Gatekeeper + Drop> Gatekeeper for FloorPort<'_, P> {
    ghost use Rattle.std.specs.Prelude.{slice_get};

    ghost unopened = { λ floors. P.unopened floors.port };

    ghost older = { λ floors. P.older floors.port };

    ghost fell = { λ floors. slice_get floors.falls 0 };

    ghost gone_back = { λ floors. floors.packer.claims.fallen };

    ghost heard = { λ floors. P.heard floors.port };

    ghost opened = { λ floors. P.opened floors.port };

    ghost differing = { λ floors. P.differing floors.port };

    ghost aside = { λ floors. P.aside floors.port };

    ghost below = { λ floors. P.below floors.port };

    ghost reported = { λ floors. P.reported floors.port };

    fn take_unopened(&mut self) -> Unopened {
        self.port.take_unopened()
    }

    fn take_older(&mut self) -> Option<Older> {
        self.port.take_older()
    }

    fn take_fell(&mut self) -> Option<Fell> {
        FloorPort::take_fell(self)
    }

    fn gone_back(&self) -> [bool; PLACES] {
        FloorPort::gone_back(self)
    }

    fn heard(&self) -> [u64; PLACES] {
        self.port.heard()
    }

    fn opened(&self) -> u64 {
        self.port.opened()
    }

    fn take_differing(&mut self) -> [bool; PLACES] {
        self.port.take_differing()
    }

    fn take_request(&mut self) -> Option<SetAside> {
        self.port.take_request()
    }

    fn drain(&mut self) {
        self.port.drain();
    }

    fn report(&mut self, request: &SetAside, page: &[u8]) -> bool {
        self.port.report(request, page)
    }

    fn flush(&mut self) {
        self.port.flush();
    }
}
