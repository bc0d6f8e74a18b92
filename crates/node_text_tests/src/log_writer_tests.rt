//! Logs over writers that fail.

use log_writer::{Outlet, SteadyWriter, SyslogWriter};
use std::alloc::Global;
use std::io::{self, ErrorKind, Write};
use std::test::Fail;

/// A writer that has room for some bytes, and refuses all others.
#[derive(Drop)]
struct Disk<'d> {
    text: &'d mut Vec<u8>,
    room: usize,
}

impl Write for Disk<'_> {
    fn write(&mut self, bytes: &[u8]) -> io::Result<usize> {
        let len = bytes.len().min(self.room);
        if len == 0 {
            return Err(ErrorKind::StorageFull.into());
        }
        match self.text.extend_from_slice(&bytes[..len]) {
            Ok(()) => {
                self.room -= len;
                Ok(len)
            }
            Err(_) => Err(ErrorKind::OutOfMemory.into()),
        }
    }

    fn flush(&mut self) -> io::Result<()> {
        Ok(())
    }
}

/// Writes each of some texts to a disk with room for `room` bytes, and flushes after each. Returns what the disk has.
fn disk_after(alloc: Global, room: usize, texts: &[&str]) -> Result<Vec<u8>, Fail> {
    let mut text = Vec::new(alloc);
    let disk = Disk {
        text: &mut text,
        room,
    };
    let mut log = SteadyWriter::new(disk);
    for text in texts {
        log.write_all(text.as_bytes())?;
        log.flush()?;
    }
    drop(log);
    Ok(text)
}

/// A writer that takes all has the same bytes, and an unfinished line waits.
#[test]
fn keeps_the_bytes(rt: HostRuntime) -> Result<(), Fail> {
    let text = disk_after(rt.alloc(), 100, &["one\ntwo\n", "th", "ree\nfo"])?;
    assert!(rt; text.as_slice() == b"one\ntwo\nthree\n".as_slice());
    Ok(())
}

/// A writer that is full drops whole lines and the rest of one.
#[test]
fn drops_what_is_refused(rt: HostRuntime) -> Result<(), Fail> {
    let text = disk_after(rt.alloc(), 6, &["one\ntwo\nthree\n", "four\n"])?;
    assert!(rt; text.as_slice() == b"one\ntw".as_slice());
    Ok(())
}

/// A writer that fails once, and then takes all.
#[derive(Drop)]
struct Once<'d> {
    text: &'d mut Vec<u8>,
    fails: bool,
}

impl Write for Once<'_> {
    fn write(&mut self, bytes: &[u8]) -> io::Result<usize> {
        if self.fails {
            self.fails = false;
            return Err(ErrorKind::BrokenPipe.into());
        }
        match self.text.extend_from_slice(bytes) {
            Ok(()) => Ok(bytes.len()),
            Err(_) => Err(ErrorKind::OutOfMemory.into()),
        }
    }

    fn flush(&mut self) -> io::Result<()> {
        Ok(())
    }
}

/// After a fault the log tells how many lines it lost, and goes on.
#[test]
fn tells_what_was_dropped(rt: HostRuntime) -> Result<(), Fail> {
    let mut text = Vec::new(rt.alloc());
    let mut log = SteadyWriter::new(Once {
        text: &mut text,
        fails: true,
    });
    log.write_all(b"one\ntwo\n")?;
    log.flush()?;
    log.flush()?;
    log.write_all(b"three\n")?;
    log.flush()?;
    drop(log);
    assert!(rt; text.as_slice() == b"dropped lines=2\nthree\n".as_slice());
    Ok(())
}

/// A way out that refuses some of the first datagrams, and has all others.
#[derive(Drop)]
struct Few<'d> {
    sent: &'d mut Vec<u8>,
    refused: u8,
}

impl Outlet for Few<'_> {
    fn send(&mut self, bytes: &[u8]) -> bool {
        if self.refused > 0 {
            self.refused -= 1;
            return false;
        }
        self.sent.extend_from_slice(bytes).is_ok() && self.sent.push(b'|').is_ok()
    }
}

/// Each line is a datagram, and the lost ones are told before the next one.
#[test]
fn sends_a_datagram_for_each_line(rt: HostRuntime) -> Result<(), Fail> {
    let mut sent = Vec::new(rt.alloc());
    let mut log = SyslogWriter::new(Few {
        sent: &mut sent,
        refused: 2,
    });
    log.write_all(b"one\ntwo\nthree\nfo")?;
    log.write_all(b"ur\nfi")?;
    log.flush()?;
    drop(log);
    let head = "<86>1 - - oathd - - - ";
    let wanted = format!(in rt.alloc(); "{head}dropped lines=2|{head}three|{head}four|")?;
    assert!(rt; sent.as_slice() == wanted.as_bytes());
    Ok(())
}
