// An array that is filled from the front.
ghost use Rattle.std.specs.Prelude.{◌≡◌, ◌+◌, ◌<◌, ◌≤◌, length, take, replicate, slice_set, ⊤};

use std::alloc::AllocError;

// Its first `len` places are filled; what the others hold is not part of it. An array and a length, since the host is
// `Copy`, which the kit's `ArrayVec` is not.
pub(crate) struct Filled<T, const N: usize> {
    pub(crate) items: [T; N],
    pub(crate) len: usize,
    ghost within: { len ≤ N },
}

// Written out, since none is derived on a generic struct that has a ghost field.
impl<T: Copy, const N: usize> Clone for Filled<T, N> {
    ghost is_clone = { λ x y. y ≡ x };

    ghost is_infallible = { λ _. ⊤ };

    fn clone(&self) -> Result<Filled<T, N>, AllocError> {
        Ok(*self)
    }
}

impl<T: Copy, const N: usize> Copy for Filled<T, N> {}

impl<T: Copy, const N: usize> Filled<T, N> {
    ghost use Rattle.rehearsal_host.specs.Filled.{filled_of};

    // Nothing yet, and `blank` in every place.
    pub(crate) fn empty(blank: T) -> Filled<T, N>
        ensures items { result.items ≡ replicate N blank }
        ensures len { result.len ≡ 0 }
    {
        Filled {
            items: [blank; N],
            len: 0,
        }
    }

    // The first N of the items.
    pub(crate) fn first_of(items: &[T], blank: T) -> Filled<T, N>
        ensures { filled_of result ≡ take N items.now }
    {
        let mut array = [blank; N];
        let len = N.min(items.len());
        array[..len].copy_from_slice(&items[..len]);
        Filled { items: array, len }
    }

    pub(crate) fn as_slice(&self) -> &[T]
        ensures { result.now ≡ filled_of self.now }
    {
        &self.items[..self.len]
    }

    pub(crate) fn push(&mut self, item: T)
        requires { self.old.len < N }
        ensures items { self.new.items ≡ slice_set self.old.items self.old.len item }
        ensures len { self.new.len ≡ self.old.len + 1 }
    {
        self.items[self.len] = item;
        self.len += 1;
    }
}
