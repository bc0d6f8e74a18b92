//! A writer of a log to an output or to a syslog.

use crate::outlet::Outlet;
use crate::steady::SteadyWriter;
use crate::syslog::SyslogWriter;
use std::io::{self, Write};

/// A writer of a log to an output that may fail, or to a syslog. Its own calls never fail.
#[derive(Drop)]
pub enum LogWriter<W: Write + Drop, D: Outlet + Drop> {
    /// To an output.
    Output(SteadyWriter<W>),
    /// To a syslog.
    Syslog(SyslogWriter<D>),
}

impl<W: Write + Drop, D: Outlet + Drop> Write for LogWriter<W, D> {
    fn write(&mut self, bytes: &[u8]) -> io::Result<usize> {
        match self {
            LogWriter::Output(writer) => writer.write(bytes),
            LogWriter::Syslog(writer) => writer.write(bytes),
        }
    }

    fn flush(&mut self) -> io::Result<()> {
        match self {
            LogWriter::Output(writer) => writer.flush(),
            LogWriter::Syslog(writer) => writer.flush(),
        }
    }
}
