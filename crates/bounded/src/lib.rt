// A list with a greatest length, in memory of its own.
#![tactic(auto)]

ghost use Rattle.std.specs.Prelude.{◌≡◌, ⊤, ◌<◌, ◌≤◌, [], ◌∷◌, ◌++◌, length};
ghost use Rattle.bounded.specs.Lists.{Held, Pushed, Extended};

use std::alloc::AllocError;
use std::marker::Model;

// What fills an unused place. The model below has to name it, and the library's Default only says what holds of it.
pub trait Blank: Copy {
    ghost blank: { Self };

    fn blank() -> Self
        ensures { result ≡ blank };
}

impl Blank for u8 {
    ghost blank = { 0 };

    fn blank() -> u8 {
        0
    }
}

// There is no room for all.
#[derive(Clone, Copy, Debug)]
pub struct Full;

// At most N items, copied freely, which the kit's ArrayVec is not. Unused places are blank, so that equal lists are equal values.
pub struct Bounded<T: Blank, const N: usize> {
    places: [T; N],
    len: usize,
}

impl<T: Blank, const N: usize> Model for Bounded<T, N> {
    ghost use Rattle.std.specs.Prelude.{◌≡◌, ◌≤◌, List, length, take};
    ghost use Rattle.std.specs.Coded.{coded_list};
    ghost use Rattle.bounded.specs.Filled.{filled};

    ghost Value = { List T };

    ghost coded = { coded_list T.code };

    ghost view = { λ b. take b.len b.places };

    ghost invariant = { λ b. (b.len ≤ N) × (b.places ≡ filled N T.blank (take b.len b.places)) };

    ghost inverse = { λ xs. record { places = filled N T.blank xs; len = length xs } };

    ghost use Rattle.std.proofs.Common.{sym};
    ghost use Rattle.bounded.specs.Count.{count_filled};

    ghost inverse_ok = { λ b h. λ i. record { places = sym h.1 i; len = count_filled N b.len T.blank b.places h.0 h.1 i } };
}

// Two lists are equal if their items are. By hand, since a derived one would compare the blanks behind them too.
impl<T: Blank + PartialEq, const N: usize> PartialEq for Bounded<T, N> {
    ghost use Rattle.std.specs.Cmp.Lexicographic.{pointwise, lists_per};

    ghost eq = { pointwise T.PartialEq.eq };

    ghost laws = { lists_per T.PartialEq.laws };

    fn eq(&self, other: &Self) -> bool {
        self.as_slice() == other.as_slice()
    }
}

impl<T: Blank + Eq, const N: usize> Eq for Bounded<T, N> {
    ghost use Rattle.std.specs.Cmp.Lexicographic.{lists_equiv};

    ghost laws = { lists_equiv T.Eq.laws };
}

impl<T: Blank, const N: usize> Copy for Bounded<T, N> {}

// By hand, since a derived one would ask what a clone of each item is.
impl<T: Blank, const N: usize> Clone for Bounded<T, N> {
    ghost is_clone = { λ b c. b ≡ c };

    ghost is_infallible = { λ _. ⊤ };

    fn clone(&self) -> Result<Self, AllocError> {
        Ok(*self)
    }
}

impl<T: Blank, const N: usize> Bounded<T, N> {
    // The list of these items; none if there are more than N.
    pub fn new(items: &[T]) -> Option<Bounded<T, N>>
        ensures { Held N items.now result }
    {
        if items.len() > N {
            return None;
        }
        let mut places = [T::blank(); N];
        places[..items.len()].copy_from_slice(items);
        Some(Bounded {
            places,
            len: items.len(),
        })
    }

    pub fn empty() -> Bounded<T, N>
        ensures { result ≡ [] }
    {
        Bounded {
            places: [T::blank(); N],
            len: 0,
        }
    }

    // Appends the item, or hands it back where there is no room.
    pub fn push(&mut self, item: T) -> Result<(), T>
        ensures { Pushed N item self.old result self.new }
    {
        if self.len >= N {
            return Err(item);
        }
        let end = self.len;
        self.places[end] = item;
        self.len = end + 1;
        Ok(())
    }

    // Appends the items, or none of them where there is no room for all.
    pub fn extend(&mut self, items: &[T]) -> Result<(), Full>
        ensures { Extended N items.now self.old result self.new }
    {
        if items.len() > N - self.len {
            return Err(Full);
        }
        let start = self.len;
        let end = start + items.len();
        // the whole as a slice first: a part of an array of N places is not lent at once
        let places = &mut self.places[..];
        places[start..end].copy_from_slice(items);
        self.len = end;
        Ok(())
    }

    pub fn as_slice(&self) -> &[T]
        ensures items { result.now ≡ self.now }
        ensures fits { length result.now ≤ N }
    {
        &self.places[..self.len]
    }
}
