use oathd_causes::Cause;
use oathd_site::Fault;
use program_edge::ProgramFault;
use thiserror::Error;

/// A fault that ends the program. Its text lacks the program's name.
#[derive(Clone, Copy, Debug, PartialEq, Eq, Error)]
#[error("{0}")]
pub(crate) struct EndFault<'a>(pub(crate) Fault<'a>);

impl ProgramFault for EndFault<'_> {
    ghost use Rattle.oathd.specs.Fault.{end_status};

    ghost status_of = { end_status };

    fn status(self) -> u8 {
        self.0.status()
    }
}

impl<'a> From<oathd_tasks::Fault<'a>> for EndFault<'a> {
    fn from(fault: oathd_tasks::Fault<'a>) -> Self {
        EndFault(Fault::Task(fault))
    }
}

/// A fault, and its cause on the next line, after two spaces.
#[derive(Clone, Copy, Debug, PartialEq, Eq, Error)]
#[error("{fault}\n  {cause}")]
pub(crate) struct ToldFault<'a> {
    pub(crate) fault: Fault<'a>,
    pub(crate) cause: Cause<'a>,
}

impl ProgramFault for ToldFault<'_> {
    ghost use Rattle.oathd.specs.Fault.{told_status};

    ghost status_of = { told_status };

    fn status(self) -> u8 {
        self.fault.status()
    }
}

/// The fault of a store whose files were removed or replaced while it was in use, and its cause on the next line.
#[derive(Clone, Copy, Debug, PartialEq, Eq, Error)]
#[error("store: Replaced\n  {cause}")]
pub(crate) struct ReplacedFault<'a> {
    pub(crate) fault: Fault<'a>,
    pub(crate) cause: Cause<'a>,
}

impl ProgramFault for ReplacedFault<'_> {
    ghost use Rattle.oathd.specs.Fault.{replaced_status};

    ghost status_of = { replaced_status };

    fn status(self) -> u8 {
        self.fault.status()
    }
}
