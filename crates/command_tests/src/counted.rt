// Objects of a run that count or record how they are used.
ghost use Rattle.std.specs.Prelude.{◌≡◌};

use sd_outside::{
    ByteBox, Cabinet, Failed, FetchError, MemCabinet, MemSource, NoMemory, Sink, Source,
};
use std::alloc::Global;

// The token was signed by another program, under the key of the policy.
const FILES: [(&str, &str); 5] = [
    (
        "policy",
        r#"{"keys":{"keys":[{"kty":"oct","k":"AQEBAQEBAQEBAQEBAQEBAQEBAQEBAQEBAQEBAQEBAQE"}]}}"#,
    ),
    (
        "order",
        r#"{"payload":{},"key":"AQEBAQEBAQEBAQEBAQEBAQEBAQEBAQEBAQEBAQEBAQE"}"#,
    ),
    ("seed", "a seed of 32 bytes, and some more"),
    (
        "token",
        "eyJhbGciOiJIUzI1NiJ9.e30.cm8Irw3f5_Kg9Gj_dx0Va_pr7uQ1ksaSioUH4DpAh2w~",
    ),
    ("bad", "?"),
];

// A cabinet with these files.
pub(crate) fn cabinet(alloc: Global) -> Result<MemCabinet, NoMemory> {
    let mut files = MemCabinet::new(alloc);
    for (name, text) in FILES {
        files.add(name, text.as_bytes())?;
    }
    Ok(files)
}

pub(crate) fn words_of(alloc: Global, words: &str) -> Result<Vec<String>, NoMemory> {
    let mut list = Vec::new(alloc);
    for word in words.split_whitespace() {
        list.push(String::from_str(alloc, word)?)?;
    }
    Ok(list)
}

// A cabinet that records what it is asked: each name, with the most bytes.
#[derive(Drop)]
pub(crate) struct Recorded {
    pub(crate) files: MemCabinet,
    pub(crate) asked: String,
}

impl Recorded {
    fn note(&mut self, alloc: Global, name: &str, most: usize) -> Result<(), NoMemory>
        ensures { self.new.files ≡ self.old.files }
    {
        let entry = format!(in alloc; " {name} {most}")?;
        self.asked.push_str(entry.as_str())?;
        Ok(())
    }
}

impl Cabinet for Recorded {
    ghost use Rattle.sd_outside.specs.Memory.{content_of};

    ghost holds = { λ c name. content_of c.files.files name };

    ghost faults = { λ c. c.files.faults };

    ghost missed = { λ c. c.files.missed };

    fn fetch(&mut self, alloc: Global, name: &str, most: usize) -> Result<ByteBox, FetchError> {
        self.note(alloc, name, most)?;
        self.files.fetch(alloc, name, most)
    }
}

// A source that counts how often it is asked.
#[derive(Drop)]
pub(crate) struct Pulled {
    pub(crate) source: MemSource,
    pub(crate) pulls: u64,
}

impl Source for Pulled {
    ghost use Rattle.std.specs.Prelude.{Some};

    ghost left = { λ s. Some s.source.left };

    ghost taken = { λ s. s.source.taken };

    ghost faults = { λ s. s.source.faults };

    fn pull(&mut self, room: &mut [u8]) -> Result<usize, Failed> {
        self.pulls = self.pulls.saturating_add(1);
        self.source.pull(room)
    }
}

// A sink that counts its pieces.
#[derive(Drop)]
pub(crate) struct Pieces(pub(crate) u64);

impl Sink for Pieces {
    ghost use Rattle.std.specs.Prelude.{None};

    ghost written = { λ _. None };

    ghost faults = { λ _. 0 };

    fn put(&mut self, _bytes: &[u8]) -> Result<(), Failed> {
        self.0 = self.0.saturating_add(1);
        Ok(())
    }
}
