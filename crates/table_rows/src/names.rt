// Texts under names, which later lines of a table use.
use crate::trouble::Trouble;
use std::alloc::Global;

/// Texts under names. Of two texts under one name the later counts.
#[derive(Drop)]
pub(crate) struct Names {
    alloc: Global,
    texts: Vec<(String, String)>,
}

impl Names {
    pub(crate) fn new(alloc: Global) -> Names {
        Names {
            alloc,
            texts: Vec::new(alloc),
        }
    }

    pub(crate) fn add(&mut self, name: &str, text: String) -> Result<(), Trouble> {
        let name = String::from_str(self.alloc, name)?;
        self.texts.push((name, text))?;
        Ok(())
    }

    pub(crate) fn find(&self, name: &str) -> Option<&str> {
        for (known, text) in self.texts.iter().rev() {
            if known.as_str() == name {
                return Some(text.as_str());
            }
        }
        None
    }
}
