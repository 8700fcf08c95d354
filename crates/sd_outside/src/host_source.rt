// An input of the host, such as its standard input.
ghost use Rattle.std.specs.Prelude.{◌≡◌};

use crate::{Failed, Source};
use std::io::Read;

/// A stream of the host, as standard input. It tells what is left if the stream tells it.
#[derive(Drop)]
pub struct HostSource<R: Read> {
    stream: R,
    taken: u64,
    faults: u64,
}

impl<R: Read> HostSource<R> {
    /// The stream, of which nothing was taken, with no fault yet. It takes no memory.
    pub fn new(stream: R) -> HostSource<R>
        ensures stream { result.stream ≡ stream }
        ensures taken { result.taken ≡ 0 }
        ensures faults { result.faults ≡ 0 }
    {
        HostSource {
            stream,
            taken: 0,
            faults: 0,
        }
    }
}

impl<R: Read> Source for HostSource<R> {
    ghost left = { λ s. R.remaining s.stream };

    ghost taken = { λ s. s.taken };

    ghost faults = { λ s. s.faults };

    fn pull(&mut self, room: &mut [u8]) -> Result<usize, Failed> {
        match self.stream.read(room) {
            Ok(count) => {
                self.taken += count as u64;
                Ok(count)
            }
            Err(_) => {
                self.faults = self.faults.saturating_add(1);
                Err(Failed)
            }
        }
    }
}
