//! Rows, which are arrays of values of one type, each in one allocation. Only six functions of the crate use raw
//! pointers, and all six are in this file.
ghost use Rattle.std.specs.Prelude.{◌≡◌, ◌≢◌, ◌<◌, ◌≤◌, ℕ, List, [], length, get_or, IfOk, ⊤};
ghost use Rattle.std.specs.Borrow.{sem};
ghost use denote.RawPtr.{Ptr};
ghost use Rattle.page_arena.specs.Owned.{row_owns, row_lends, Reaches, put_at};

use std::alloc::{AllocError, Allocator};
use std::marker::{Model, PhantomData, Send, Sync};
use std::mem::{align_of, size_of};

/// A pointer to the first value of an array in one allocation. It owns nothing.
pub(crate) struct Start<T> {
    first: *mut T,
}

impl<T> Clone for Start<T> {
    ghost is_clone = { λ x y. y ≡ x };

    ghost is_infallible = { λ _. ⊤ };

    fn clone(&self) -> Result<Start<T>, AllocError> {
        Ok(*self)
    }
}

impl<T> Copy for Start<T> {}

unsafe impl<T> Send for Start<T> {}

unsafe impl<T> Sync for Start<T> {}

/// The owner of an array of values in one allocation. It owns the array's values, the unused memory after the values,
/// and the right to free the allocation. A `Row` takes no space.
pub(crate) struct Row<T, A: Allocator> {
    mark: PhantomData<*const (T, A)>,
    ghost at: { Ptr },
    ghost room: { ℕ },
    ghost items: { List T },
    ghost alloc: { A },
}

impl<T, A: Allocator> Model for Row<T, A> {
    ghost also_owns = { λ r. row_owns (A.dealloc_token r.alloc) T.row r.at r.room r.items };

    ghost also_shares = { λ r _ κ. row_lends T.row r.at r.items κ };
}

unsafe impl<T: Send, A: Allocator + Send> Send for Row<T, A> {}

/// Allocates an empty array with capacity for `room` values.
pub(crate) fn allocate<T, A: Allocator>(
    alloc: &A,
    room: usize,
) -> Result<(Start<T>, Row<T, A>), AllocError>
    requires { Reaches T.row room }
    ensures { IfOk result (λ r. (r.1.at ≡ r.0.first) × (r.1.room ≡ room) × (r.1.items ≡ []) × (r.1.alloc ≡ alloc.now)) }
{
    match alloc.allocate(room * size_of::<T>(), align_of::<T>()) {
        Ok(block) => {
            let start = Start {
                first: block as *mut T,
            };
            Ok((start, Row { mark: PhantomData }))
        }
        Err(refused) => Err(refused),
    }
}

/// Frees the memory of the array that a `Row` owns.
pub(crate) fn release<T, A: Allocator>(alloc: &A, start: Start<T>, room: usize, row: Row<T, A>)
    requires { (row.at ≡ start.first) × (row.room ≡ room) × (length row.items ≤ room) × (row.alloc ≡ alloc.now) × Reaches T.row room }
{
    let Row { mark: _ } = row;
    unsafe {
        alloc.deallocate(
            start.first as *mut u8,
            room * size_of::<T>(),
            align_of::<T>(),
        );
    }
}

impl<T, A: Allocator> Row<T, A> {
    ghost use Rattle.page_arena.specs.Lends.{HasItem, lends_item};

    /// Returns a reference to value `index` of the array.
    pub(crate) fn get(&self, start: Start<T>, index: usize) -> &T
        requires { HasItem T.row start self.now index }
        ensures { result.now ≡ get_or self.now.items index result.now }
    {
        unsafe { &*start.first.add(index) }
    }

    /// Returns a mutable reference to value `index` of the array.
    pub(crate) fn get_mut(&mut self, start: Start<T>, index: usize) -> &mut T
        requires { HasItem T.row start self.old index }
        ensures* writes_back { sem 𝓛 (lends_item T.row A.row A.Allocator self.entry index result) }
        ensures value { result.now ≡ get_or self.old.items index result.now }
    {
        unsafe { &mut *start.first.add(index) }
    }

    /// Returns a reference to one value of the array, and a mutable reference to another.
    pub(crate) fn two(&mut self, start: Start<T>, read: usize, write: usize) -> (&T, &mut T)
        requires { HasItem T.row start self.old read × HasItem T.row start self.old write × (read ≢ write) }
        ensures* writes_back { sem 𝓛 (lends_item T.row A.row A.Allocator self.entry write result.1) }
        ensures values { (result.0.now ≡ get_or self.old.items read result.0.now) × (result.1.now ≡ get_or self.old.items write result.1.now) }
    {
        unsafe { (&*start.first.add(read), &mut *start.first.add(write)) }
    }

    /// Writes `item` at `index` of the array. The item replaces the value there, or is added after the last value if
    /// `index` is the number of values.
    pub(crate) fn put(&mut self, start: Start<T>, index: usize, item: T)
        requires { (start.first ≡ self.old.at) × (index ≤ length self.old.items) × (index < self.old.room) × Reaches T.row self.old.room }
        ensures { (self.new.at ≡ self.old.at) × (self.new.room ≡ self.old.room) × (self.new.alloc ≡ self.old.alloc) × (self.new.items ≡ put_at self.old.items index item) }
    {
        unsafe { start.first.add(index).write(item) }
    }
}
