ghost use Rattle.std.specs.Prelude.{◌≡◌};

use smallvec::SmallVec;
use std::alloc::AllocError;
use std::marker::Model;

/// Items in order, of which the first few take no memory of their own. A contract sees the list of them.
#[derive(Debug, Drop)]
pub struct Short<T, const N: usize> {
    items: SmallVec<T, N>,
}

impl<T, const N: usize> Model for Short<T, N> {
    ghost use Rattle.std.specs.Prelude.{List};
    ghost use Rattle.std.specs.Coded.{coded_list};

    ghost Value = { List T };

    ghost coded = { coded_list T.code };

    ghost view = { λ s. s.items.items };
}

impl<T, const N: usize> Short<T, N> {
    /// The items of a small vector, which is taken over. Takes no memory.
    pub fn from_small(items: SmallVec<T, N>) -> Short<T, N>
        ensures { result ≡ items.items }
    {
        Short { items }
    }

    /// Lends the items.
    pub fn as_slice(&self) -> &[T]
        ensures { result.now ≡ self.now }
    {
        self.items.as_slice()
    }
}

impl<T: Default + Clone + Drop, const N: usize> Clone for Short<T, N> {
    ghost use Rattle.std.specs.List.{AllZip};

    ghost is_clone = { λ v w. AllZip T.is_clone v w };

    fn clone(&self) -> Result<Self, AllocError> {
        Ok(Short {
            items: self.items.clone()?,
        })
    }
}

impl<T: PartialEq, const N: usize> PartialEq for Short<T, N> {
    ghost use Rattle.std.specs.Cmp.Lexicographic.{pointwise};
    ghost use Rattle.std.proofs.Common.{rules};
    ghost use Rattle.std.specs.Cmp.Rules.{comparing};

    ghost eq = { pointwise T.eq };

    ghost laws = { Prim.search (comparing, rules) };

    fn eq(&self, other: &Short<T, N>) -> bool {
        self.items.as_slice() == other.items.as_slice()
    }
}

impl<T: Eq, const N: usize> Eq for Short<T, N> {
    ghost use Rattle.std.proofs.Common.{rules};
    ghost use Rattle.std.specs.Cmp.Rules.{comparing};

    ghost laws = { Prim.search (comparing, rules) };
}
