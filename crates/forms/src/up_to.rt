//! At most `N` items, kept with no heap.
ghost use Rattle.std.specs.Prelude.{◌≡◌, ℕ, ◌<◌, ◌≤◌, length, get_or, take, ⊤};

use std::alloc::AllocError;

/// The first `count` of the places hold the items. What stands behind them says nothing.
#[derive(Copy)]
pub(crate) struct UpTo<T, const N: usize> {
    places: [T; N],
    count: u8,
    ghost room: { count ≤ length places },
}

// `Clone` is not derived beside a ghost field of a generic struct.
impl<T: Copy, const N: usize> Clone for UpTo<T, N> {
    ghost is_clone = { λ x y. y ≡ x };

    ghost is_infallible = { λ _. ⊤ };

    fn clone(&self) -> Result<UpTo<T, N>, AllocError> {
        Ok(*self)
    }
}

impl<T: Copy, const N: usize> UpTo<T, N> {
    /// The items `item(0)`, `item(1)`, .., `item(count - 1)`.
    pub(crate) fn fill<F: Fn(u8) -> T>(count: u8, blank: T, item: F) -> UpTo<T, N>
        requires room { count ≤ N }
        requires calls { (i : ℕ) → i < count → F.pre item i }
        ensures count { result.count ≡ count }
        ensures items { (i : ℕ) → i < count → F.post item i (get_or (take result.count result.places) i blank) }
    {
        let mut places = [blank; N];
        for (i, place) in places[..count as usize].iter_mut().enumerate() {
            *place = item(i as u8);
        }
        UpTo { places, count }
    }

    /// How many items there are.
    pub(crate) fn count(&self) -> u8
        ensures { result ≡ self.now.count }
    {
        self.count
    }

    /// The items.
    pub(crate) fn as_slice(&self) -> &[T]
        ensures { result.now ≡ take self.now.count self.now.places }
    {
        &self.places[..self.count as usize]
    }
}
