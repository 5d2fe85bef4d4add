//! A list.
ghost use Rattle.std.specs.Prelude.{◌≡◌, [], ◌∷◌, ◌++◌, length, IfOk, OnOk, OnErr};

use std::alloc::{AllocError, Global};
use std::marker::Model;

/// A list that owns its elements. Contracts see nothing of it but the elements: two lists are equal if their elements
/// are, whatever room they have left.
#[derive(Debug, Drop)]
pub struct Items<T> {
    elements: Vec<T>,
}

impl<T> Model for Items<T> {
    ghost use Rattle.std.specs.Prelude.{List};
    ghost use Rattle.std.specs.Coded.{coded_list};

    ghost Value = { List T };

    ghost coded = { coded_list T.code };

    ghost view = { λ i. i.elements.items };
}

impl<T> Items<T> {
    pub fn new(alloc: Global) -> Items<T>
        ensures { result ≡ [] }
    {
        Items {
            elements: Vec::new(alloc),
        }
    }

    pub fn of(elements: Vec<T>) -> Items<T>
        ensures { result ≡ elements.items }
    {
        Items { elements }
    }

    pub fn as_slice(&self) -> &[T]
        ensures { result.now ≡ self.now }
    {
        self.elements.as_slice()
    }

    pub fn len(&self) -> usize
        ensures { result ≡ length self.now }
    {
        self.elements.len()
    }
}

impl<T: Copy> Items<T> {
    /// A copy of the elements.
    pub fn copied(alloc: Global, elements: &[T]) -> Result<Items<T>, AllocError>
        ensures { IfOk result (λ list. list ≡ elements.now) }
    {
        let elements = Vec::from_slice(alloc, elements)?;
        Ok(Items { elements })
    }

    /// Puts a copy of the elements at the end.
    pub fn extend_from_slice(&mut self, elements: &[T]) -> Result<(), AllocError>
        ensures { OnOk result (self.new ≡ self.old ++ elements.now) }
    {
        self.elements.extend_from_slice(elements)?;
        Ok(())
    }
}

impl<T: Drop> Items<T> {
    /// Puts an element at the end. If memory is refused, the list is as before.
    pub fn push(&mut self, element: T) -> Result<(), AllocError>
        ensures pushed { OnOk result (self.new ≡ self.old ++ element ∷ []) }
        ensures kept { OnErr result (self.new ≡ self.old) }
    {
        self.elements.push(element)?;
        Ok(())
    }
}
