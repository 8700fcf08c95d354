// An output of the host, such as its standard output.
ghost use Rattle.std.specs.Prelude.{◌≡◌};

use crate::{Failed, Sink};
use std::io::Write;

/// A stream of the host, as standard output. It tells what it has written if the stream tells it.
#[derive(Drop)]
pub struct HostSink<W: Write> {
    stream: W,
    faults: u64,
}

impl<W: Write> HostSink<W> {
    /// The stream, with no fault yet. It takes no memory.
    pub fn new(stream: W) -> HostSink<W>
        ensures stream { result.stream ≡ stream }
        ensures faults { result.faults ≡ 0 }
    {
        HostSink { stream, faults: 0 }
    }
}

impl<W: Write> Sink for HostSink<W> {
    ghost written = { λ s. W.contents s.stream };

    ghost faults = { λ s. s.faults };

    // A write that takes nothing of a piece that is not empty is a fault, as an error is.
    fn put(&mut self, bytes: &[u8]) -> Result<(), Failed> {
        let mut rest = bytes;
        while !rest.is_empty() {
            let count = self.stream.write(rest).unwrap_or(0);
            if count == 0 {
                self.faults = self.faults.saturating_add(1);
                return Err(Failed);
            }
            rest = &rest[count..];
        }
        Ok(())
    }
}
