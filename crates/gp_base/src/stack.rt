//! Stacks: lists whose last item is the first to go.

ghost use Rattle.std.specs.Prelude.{◌≡◌, [], ◌∷◌, OnOk};
ghost use Rattle.gp_base.specs.Stacks.{Pops, below_top, is_nothing, top_of};

use std::alloc::{AllocError, Global};
use std::marker::Model;

/// A stack. A contract sees it as the list of its items, the top first.
#[derive(Drop)]
pub struct Stack<T> {
    items: Vec<T>,
}

impl<T> Model for Stack<T> {
    ghost use Rattle.std.specs.Prelude.{List, reverse};

    ghost Value = { List T };

    ghost view = { λ stack. reverse stack.items.items };
}

impl<T> Stack<T> {
    /// A stack without items. Takes no memory.
    pub fn new(alloc: Global) -> Stack<T>
        ensures { result ≡ [] }
    {
        Stack {
            items: Vec::new(alloc),
        }
    }

    /// Whether the stack has no item.
    pub fn is_empty(&self) -> bool
        ensures { result ≡ is_nothing self.now }
    {
        self.items.is_empty()
    }

    /// Takes the top off; `None` exactly where the stack is empty.
    pub fn pop(&mut self) -> Option<T>
        ensures { Pops self.old result self.new }
    {
        self.items.pop()
    }
}

impl<T: Copy> Stack<T> {
    /// The top; `None` exactly where the stack is empty.
    pub fn top(&self) -> Option<T>
        ensures { result ≡ top_of self.now }
    {
        self.items.last().copied()
    }
}

impl<T: Drop> Stack<T> {
    /// Takes the top off and drops it. A stack without items stays as it is.
    pub fn take_back(&mut self)
        ensures { self.new ≡ below_top self.old }
    {
        let _ = self.items.pop();
    }

    /// Puts an item on top. After an error the item is dropped.
    pub fn push(&mut self, item: T) -> Result<(), AllocError>
        ensures { OnOk result (self.new ≡ item ∷ self.old) }
    {
        self.items.push(item)?;
        Ok(())
    }
}
