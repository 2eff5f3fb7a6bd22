// The real input and output: an edge that is trusted. Each counts its faults, and tells nothing of its bytes.
ghost use Rattle.std.specs.Prelude.{◌≡◌, None};
ghost use Rattle.std.specs.Io.{ReadsAtMost, WritesAtMost};

use crate::trouble::{Faults, Trouble};
use ev_world::{Failed, Sink, Source};
use std::io;
use std::io::{ErrorKind, Read, Write};

// How often a call that a signal interrupts is tried again.
const TRIES: u32 = 1_000_000;

/// The bytes of a reader.
#[derive(Drop)]
pub struct Reading<R> {
    pub inner: R,
    faults: Faults,
}

impl<R: Read> Reading<R> {
    pub fn new(inner: R) -> Self
        ensures { result.inner ≡ inner }
    {
        let faults = Faults::none();
        Reading { inner, faults }
    }

    /// Why it failed first, where it did.
    pub fn trouble(&self) -> Option<&Trouble> {
        self.faults.first()
    }
}

impl<R: Read> Source for Reading<R> {
    ghost left = { λ s. None };

    ghost faults = { λ s. s.faults.count };

    fn read(&mut self, out: &mut [u8]) -> Result<usize, Failed> {
        match read_on(&mut self.inner, out) {
            Ok(count) => Ok(count),
            Err(error) => Err(self.faults.refused("read", error)),
        }
    }
}

// Reads, again where a signal interrupts it.
fn read_on<R: Read>(inner: &mut R, out: &mut [u8]) -> io::Result<usize>
    ensures bound { ReadsAtMost result out.new }
{
    for _ in 0..TRIES {
        match inner.read(out) {
            Err(error) if error.kind() == ErrorKind::Interrupted => {}
            answer => return answer,
        }
    }
    Err(io::Error::from(ErrorKind::Interrupted))
}

/// A writer.
#[derive(Drop)]
pub struct Writing<W> {
    pub inner: W,
    faults: Faults,
}

impl<W: Write> Writing<W> {
    pub fn new(inner: W) -> Self
        ensures { result.inner ≡ inner }
    {
        let faults = Faults::none();
        Writing { inner, faults }
    }

    /// Why it failed first, where it did.
    pub fn trouble(&self) -> Option<&Trouble> {
        self.faults.first()
    }
}

impl<W: Write> Sink for Writing<W> {
    ghost taken = { λ s. None };

    ghost faults = { λ s. s.faults.count };

    // A writer that takes nothing of a piece has failed.
    fn write(&mut self, bytes: &[u8]) -> Result<usize, Failed> {
        match write_on(&mut self.inner, bytes) {
            Ok(0) if !bytes.is_empty() => {
                let error = io::Error::from(ErrorKind::WriteZero);
                Err(self.faults.refused("written", error))
            }
            Ok(count) => Ok(count),
            Err(error) => Err(self.faults.refused("written", error)),
        }
    }
}

// Writes, again where a signal interrupts it.
fn write_on<W: Write>(inner: &mut W, bytes: &[u8]) -> io::Result<usize>
    ensures bound { WritesAtMost result bytes.now }
{
    for _ in 0..TRIES {
        match inner.write(bytes) {
            Err(error) if error.kind() == ErrorKind::Interrupted => {}
            answer => return answer,
        }
    }
    Err(io::Error::from(ErrorKind::Interrupted))
}
