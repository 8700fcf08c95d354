// The files of the host.
ghost use Rattle.std.specs.Prelude.{◌≡◌, ◌≤◌, None, length, take, IfOk, IfSome};

use crate::{ByteBox, Cabinet, FetchError, TextBox};
use std::alloc::Global;
use std::fs;
use std::io::Read;
use std::rt::Files;

/// The files of the host, by path. It tells no content.
#[derive(Drop)]
pub struct HostCabinet<R: Files> {
    rt: R,
    faults: u64,
    missed: Option<TextBox>,
}

impl<R: Files> HostCabinet<R> {
    /// The files that the runtime reaches, with no fault yet. It takes no memory.
    pub fn new(rt: R) -> HostCabinet<R>
        ensures faults { result.faults ≡ 0 }
        ensures missed { result.missed ≡ None }
    {
        HostCabinet {
            rt,
            faults: 0,
            missed: None,
        }
    }
}

// The most bytes that one read asks for. Few, since they are filled with zeros
// before the first read, and most files are short.
const BLOCK: usize = 8_192;

// At most `most` bytes of a file. Each turn but the last takes a byte or more. The file is not
// asked for its size, since the memory grows by doubling.
fn read_front<F: Read>(alloc: Global, file: &mut F, most: usize) -> Result<ByteBox, FetchError>
    ensures content { IfOk result
        (λ bytes. IfSome (F.remaining file.old) (λ rest. bytes ≡ take most rest)) }
    ensures within { IfOk result (λ bytes. length bytes ≤ most) }
{
    let mut bytes = ByteBox::new(alloc);
    let mut block = [0u8; BLOCK];
    let mut left = most;
    while left > 0 {
        let wanted = left.min(BLOCK);
        match file.read(&mut block[..wanted]) {
            Ok(0) => break,
            Ok(count) => {
                bytes.append(&block[..count])?;
                left -= count;
            }
            Err(_) => return Err(FetchError::Failed),
        }
    }
    Ok(bytes)
}

fn read_file<R: Files>(
    alloc: Global,
    rt: &R,
    name: &str,
    most: usize,
) -> Result<ByteBox, FetchError>
    ensures { IfOk result (λ bytes. length bytes ≤ most) }
{
    match fs::open(rt, name) {
        Ok(mut file) => read_front(alloc, &mut file, most),
        Err(_) => Err(FetchError::Failed),
    }
}

impl<R: Files> Cabinet for HostCabinet<R> {
    ghost holds = { λ _ _. None };

    ghost faults = { λ c. c.faults };

    ghost missed = { λ c. c.missed };

    fn fetch(&mut self, alloc: Global, name: &str, most: usize) -> Result<ByteBox, FetchError> {
        let missing = TextBox::make(alloc, name)?;
        match read_file(alloc, &self.rt, name, most) {
            Err(FetchError::Failed) => {
                self.faults = self.faults.saturating_add(1);
                self.missed = Some(missing);
                Err(FetchError::Failed)
            }
            answer => answer,
        }
    }
}
