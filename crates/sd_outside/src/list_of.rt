// Lists that grow, and say so where there is no memory.
ghost use Rattle.std.specs.Prelude.{◌≡◌, ◌↔◌, [], ◌∷◌, ◌++◌, length, IsTrue, OnOk, OnErr, slice_get};
ghost use Rattle.std.specs.Option.{option_copied};
ghost use Rattle.sd_outside.specs.Lists.{StandsAt, In};

use crate::{NoMemory, TextBox};
use std::alloc::Global;
use std::marker::Model;

/// Values in order. Contracts see the list of them.
#[derive(Debug, Drop)]
pub struct ListOf<T> {
    elements: Vec<T>,
}

/// Texts in order. Contracts see the list of their bytes.
pub type TextList = ListOf<TextBox>;

impl<T> Model for ListOf<T> {
    ghost use Rattle.std.specs.Prelude.{List};

    ghost Value = { List T };

    ghost view = { λ l. l.elements.items };
}

impl<T: Drop> ListOf<T> {
    /// No values. It takes no memory.
    pub fn new(alloc: Global) -> ListOf<T>
        ensures { result ≡ [] }
    {
        ListOf {
            elements: Vec::new(alloc),
        }
    }

    /// Adds a value at the end.
    pub fn push(&mut self, element: T) -> Result<(), NoMemory>
        ensures ok { OnOk result (self.new ≡ self.old ++ element ∷ []) }
        ensures err { OnErr result (self.new ≡ self.old) }
    {
        self.elements.push(element)?;
        Ok(())
    }

    /// The values, in their order.
    pub fn elements(&self) -> &[T]
        ensures { result.now ≡ self.now }
    {
        self.elements.as_slice()
    }

    /// The values, in their order, with no copy.
    pub fn into_elements(self) -> Vec<T>
        ensures { result.items ≡ self }
    {
        let ListOf { elements } = self;
        elements
    }

    /// The number of values.
    pub fn len(&self) -> usize
        ensures { result ≡ length self.now }
    {
        self.elements.len()
    }

    /// The value at a position, counted from 0.
    pub fn at(&self, i: usize) -> Option<&T>
        ensures { option_copied result ≡ slice_get self.now i }
    {
        self.elements.get(i)
    }
}

impl ListOf<TextBox> {
    // Whether this text stands at a position.
    fn is_at(&self, i: usize, text: &str) -> bool
        ensures { IsTrue result ↔ StandsAt self.now i text.now }
    {
        match self.at(i) {
            Some(other) => other.as_str() == text,
            None => false,
        }
    }

    /// Whether a text is one of them.
    pub fn contains(&self, text: &str) -> bool
        ensures { IsTrue result ↔ In text.now self.now }
    {
        for i in 0..self.len() {
            if self.is_at(i, text) {
                return true;
            }
        }
        false
    }
}
