//! A vector that contracts see as its list.
ghost use Rattle.std.specs.Prelude.{◌≡◌, ◌==◌, ◌<◌, ◌^◌, length, IfOk};
ghost use Rattle.std.specs.Cmp.Lexicographic.{pointwise, pointwise_decides, lists_per, lists_equiv};
ghost use Rattle.std.specs.Iterator.Runs.{EveryRun, ItemsMapTo};
ghost use Rattle.std.specs.Slice.Iter.{iter_rest, iter_steps};

use crate::exact::Exact;
use std::alloc::{AllocError, Global};
use std::marker::Model;
use std::slice;

/// Some values in order. In contracts it is the list of them.
///
/// It is a vector, but contracts say nothing of its capacity or address. `from_vec` and `into_vec`
/// move the vector and copy nothing.
#[derive(Debug, Drop)]
pub struct Listed<T> {
    values: Vec<T>,
}

impl<T> Model for Listed<T> {
    ghost use Rattle.std.specs.Prelude.{List};
    ghost use Rattle.std.specs.Coded.{coded_list};

    ghost Value = { List T };

    ghost coded = { coded_list T.code };

    ghost view = { λ listed. listed.values.items };
}

impl<T> Listed<T> {
    /// Returns the list of the values of a vector.
    pub fn from_vec(values: Vec<T>) -> Listed<T>
        ensures { result ≡ values.items }
    {
        Listed { values }
    }

    /// Returns the vector of the values.
    pub fn into_vec(self) -> Vec<T>
        ensures { result.items ≡ self }
    {
        let Listed { values } = self;
        values
    }

    /// Returns the values as a slice.
    pub fn as_slice(&self) -> &[T]
        ensures { result.now ≡ self.now }
    {
        self.values.as_slice()
    }

    /// Returns the number of values.
    pub fn len(&self) -> usize
        ensures { result ≡ length self.now }
    {
        self.values.len()
    }

    /// Returns whether the list is empty.
    pub fn is_empty(&self) -> bool
        ensures { result ≡ (length self.now == 0) }
    {
        self.values.is_empty()
    }

    /// Returns an iterator of the values in order.
    pub fn iter(&self) -> slice::Iter<'_, T>
        ensures { iter_rest result ≡ self.now }
    {
        self.values.iter()
    }
}

impl<T: Exact> Listed<T> {
    /// Copies the values of a slice, in order. It may run out of memory.
    pub fn from_slice(alloc: Global, values: &[T]) -> Result<Listed<T>, AllocError>
        ensures { IfOk result (λ listed. listed ≡ values.now) }
    {
        let values = Vec::from_clones(alloc, values)?;
        Ok(Listed { values })
    }
}

impl<'a, T> IntoIterator for &'a Listed<T> {
    type Item = &'a T;

    type IntoIter = slice::Iter<'a, T>;

    ghost into_iter_gives = { λ v it. (iter_rest it ≡ v.now) × (length (iter_rest it) < 2 ^ 64)
        × EveryRun (iter_steps {A = T}) (λ p. ItemsMapTo p (λ x. x.now) (iter_rest p.from)) };

    fn into_iter(self) -> slice::Iter<'a, T> {
        self.as_slice().iter()
    }
}

impl<T: Exact> Clone for Listed<T> {
    ghost is_clone = { λ listed copy. copy ≡ listed };

    fn clone(&self) -> Result<Listed<T>, AllocError> {
        let values = self.values.clone()?;
        Ok(Listed { values })
    }
}

impl<T: PartialEq> PartialEq for Listed<T> {
    ghost eq = { pointwise T.eq };

    ghost laws = { lists_per T.laws };

    fn eq(&self, other: &Listed<T>) -> bool {
        self.values == other.values
    }
}

impl<T: Eq> Eq for Listed<T> {
    ghost laws = { lists_equiv T.Eq.laws };
}

impl<T: Exact> Exact for Listed<T> {
    ghost equal = { pointwise_decides T.equal };

    ghost copied = { λ listed copy same. same };
}
