//! All values of `PhantomData` are equal.
ghost use Rattle.std.specs.Prelude.{◌≡◌, [], Ok};
ghost use Rattle.std.specs.declared.cmp.Ordering.TheVariants.{Equal};

use crate::ord::{DerOrd, ValueOrd};
use der_base::Error;
use std::cmp::Ordering;
use std::marker::PhantomData;

/// Returns `Ordering::Equal` for any two values. Never fails.
impl<T> ValueOrd for PhantomData<T> {
    ghost value_order = { λ _ _. Ok Equal };

    fn value_cmp(&self, _other: &Self) -> Result<Ordering, Error> {
        Ok(Ordering::Equal)
    }
}

/// Returns `Ordering::Equal` for any two values. Never fails. The encoding of each value is empty,
/// so joined encodings of several values cannot be separated again: the ghost member `delimits`
/// does not hold.
impl<T> DerOrd for PhantomData<T> {
    ghost order = { λ _ _. Ok Equal };

    ghost octets = { λ _. [] };

    ghost by_octets = { λ _ _. Unit {0} };

    ghost has_header = { λ _. Unit {0} };

    ghost delimits = { ⊥ };

    ghost delimited = { λ none. absurd none };

    fn der_cmp(&self, _other: &Self) -> Result<Ordering, Error> {
        Ok(Ordering::Equal)
    }
}
