// A list of few items, in an array of fixed size.
ghost use Rattle.std.specs.Prelude.{◌≡◌, ◌≤◌, ◌<◌, ◌+◌, ◌-◌, [], ◌∷◌, ◌++◌, List, ℕ, length, slice_get, slice_set, take, drop, suc, Some};

use std::alloc::AllocError;
use std::marker::Model;

/// A type with a value for the places that hold no item.
pub trait Filler: Copy {
    ghost blank: { Self };

    /// That value.
    fn blank() -> Self
        ensures { result ≡ blank };
}

/// Up to `N` items. The places after the last are blank, so two with the same items are the same.
#[derive(PartialEq, Eq)]
pub struct Few<T: Filler, const N: usize> {
    items: [T; N],
    count: usize,
}

impl<T: Filler, const N: usize> Model for Few<T, N> {
    ghost use Rattle.std.specs.Prelude.{◌≡◌, List, ℕ, length, take};
    ghost use Rattle.std.proofs.Common.{ap, ◌∙◌};
    ghost use Rattle.mg_model.specs.Filled.{filled, IsFilled};
    ghost use Rattle.mg_model.specs.FilledLemmas.{filled-take, length-filled};

    ghost Value = { List T };

    ghost view = { λ few. take few.count few.items };

    ghost invariant = { λ few. IsFilled T.blank N few.items few.count };

    ghost inverse = { λ xs. record { items = filled T.blank N xs; count = length xs } };

    ghost inverse_ok = { λ few h. ap (λ v. record { items = v; count = length (take few.count few.items) }) (filled-take T.blank N few.items few.count h)
        ∙ ap (λ v. record { items = few.items; count = v }) (length-filled T.blank N few.items few.count h) };
}

impl<T: Filler, const N: usize> Copy for Few<T, N> {}

impl<T: Filler, const N: usize> Clone for Few<T, N> {
    ghost is_clone = { λ few copy. copy ≡ few };

    fn clone(&self) -> Result<Self, AllocError> {
        Ok(*self)
    }
}

impl<T: Filler, const N: usize> Few<T, N> {
    /// No items.
    pub fn new() -> Self
        ensures { result ≡ [] }
    {
        Few {
            items: [T::blank(); N],
            count: 0,
        }
    }

    /// The items.
    pub fn as_slice(&self) -> &[T]
        ensures value { result.now ≡ self.now }
        ensures at_most_ { length self.now ≤ N }
    {
        &self.items[..self.count]
    }

    /// The last item.
    pub fn last(&self) -> T
        requires { 1 ≤ length self.now }
        ensures { slice_get self.now (length self.now - 1) ≡ Some result }
    {
        self.items[self.count - 1]
    }

    /// One item more, the last.
    pub fn add(&mut self, item: T)
        requires { length self.old < N }
        ensures { self.new ≡ self.old ++ item ∷ [] }
    {
        self.items[self.count] = item;
        self.count += 1;
    }

    /// All but the last item.
    pub fn pop(&mut self)
        requires { 1 ≤ length self.old }
        ensures { self.new ≡ take (length self.old - 1) self.old }
    {
        self.count -= 1;
        self.items[self.count] = T::blank();
    }

    /// These items too, after the others.
    pub fn extend(&mut self, items: &[T])
        requires { length self.old + length items.now ≤ N }
        ensures { self.new ≡ self.old ++ items.now }
    {
        for item in items {
            self.add(*item);
        }
    }

    /// All but the item at this place. The later ones close up.
    pub fn remove(&mut self, place: usize)
        requires { place < length self.old }
        ensures { self.new ≡ take place self.old ++ drop (suc place) self.old }
    {
        let before = *self;
        let items = before.as_slice();
        *self = Few::new();
        self.extend(&items[..place]);
        self.extend(&items[place + 1..]);
    }
}
