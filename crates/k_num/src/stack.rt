//! A stack that contracts see as the list of its items, the topmost first.
ghost use Rattle.std.specs.Prelude.{◌≡◌, [], ◌∷◌, length, MatchOption, OnOk};
ghost use Rattle.std.specs.Option.{option_copied};
ghost use Rattle.k_num.specs.Top.{top};

use crate::NoMemory;
use std::alloc::Global;
use std::marker::Model;

/// What is open or waits, the newest on top. Unlike a list it shows its end first, so a contract sees what is taken off next.
#[derive(Drop)]
pub struct Stack<T> {
    items: Vec<T>,
}

impl<T> Model for Stack<T> {
    ghost use Rattle.std.specs.Prelude.{List, reverse};
    ghost use Rattle.std.specs.Coded.{coded_list};

    ghost Value = { List T };

    ghost coded = { coded_list T.code };

    ghost view = { λ s. reverse s.items.items };
}

impl<T> Stack<T> {
    /// The empty stack. It takes no memory until an item is pushed.
    pub fn new(alloc: Global) -> Stack<T>
        ensures { result ≡ [] }
    {
        Stack {
            items: Vec::new(alloc),
        }
    }

    /// How many items there are.
    pub fn len(&self) -> usize
        ensures { result ≡ length self.now }
    {
        self.items.len()
    }

    /// The topmost item.
    pub fn top(&self) -> Option<&T>
        ensures { option_copied result ≡ top self.now }
    {
        self.items.last()
    }

    /// Takes the topmost item off.
    pub fn pop(&mut self) -> Option<T>
        ensures { MatchOption result ((self.old ≡ []) × (self.new ≡ [])) (λ item. self.old ≡ item ∷ self.new) }
    {
        self.items.pop()
    }
}

impl<T: Drop> Stack<T> {
    /// Puts an item on top. A refusal drops the item.
    pub fn push(&mut self, item: T) -> Result<(), NoMemory>
        ensures { OnOk result (self.new ≡ item ∷ self.old) }
    {
        self.items.push(item)?;
        Ok(())
    }
}
