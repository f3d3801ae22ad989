//! A list that contracts see and no code holds.
#![tactic(auto)]

ghost use Rattle.std.specs.Prelude.{◌≡◌, List, [], ◌∷◌, ◌++◌};
ghost use base.Fml.{ftrue};

use std::marker::{Model, PhantomData};

/// A list of values of `T`, as contracts alone see it. It has no bytes, and is made without memory.
#[derive(Drop)]
pub struct GhostList<T> {
    of: PhantomData<T>,
    ghost list: { List T },
}

impl<T> Model for GhostList<T> {
    ghost use Rattle.std.specs.Prelude.{List};
    ghost use base.Fml.{ftrue};

    ghost Value = { List T };

    ghost view = { λ g. g.list };

    ghost also_owns = { λ _. ftrue };
}

impl<T> GhostList<T> {
    /// The empty list.
    pub fn empty() -> GhostList<T>
        ensures { result ≡ [] }
    {
        GhostList::picked(&())
    }

    /// The list of these items.
    pub fn of(items: &[T]) -> GhostList<T>
        ensures { result ≡ items.now }
    {
        GhostList::picked(&items)
    }

    /// This list, and then the item.
    pub fn then(&self, item: &T) -> GhostList<T>
        ensures { result ≡ self.now ++ item.now ∷ [] }
    {
        GhostList::picked(&(self, item))
    }

    /// The list that the caller picks. It may speak of `of`.
    pub fn picked<U>(of: &U) -> GhostList<T>
        ghost list: { List T }
        ensures { result ≡ list }
    {
        let _ = of;
        GhostList { of: PhantomData }
    }
}

unsafe impl<T> Send for GhostList<T> {}

unsafe impl<T> Sync for GhostList<T> {}
