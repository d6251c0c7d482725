ghost use Rattle.std.specs.Prelude.{◌≡◌, ℕ, Bool, true, [], ◌∷◌, ◌++◌, length, filter, is_ok, Ok, Err, Some, None, IfOk, if◌then◌else◌, nat_le, nat_lt, ⊤};
ghost use Rattle.std.specs.Result.{result_err};
ghost use Rattle.table.specs.Counted.{items_of};
ghost use Rattle.table.specs.Keeping.{Answers};
ghost use Rattle.table.specs.Tables.{ascends};

use super::Rows;
use std::alloc::AllocError;

// By hand, since a derive gives none of a generic struct with a ghost field.
impl<T: Copy, const N: usize> Clone for Rows<T, N> {
    ghost is_clone = { λ x y. y ≡ x };

    ghost is_infallible = { λ _. ⊤ };

    fn clone(&self) -> Result<Rows<T, N>, AllocError> {
        Ok(*self)
    }
}

impl<T: Copy, const N: usize> Rows<T, N> {
    // None yet; `blank` fills the places that do not count.
    pub fn new(blank: T) -> Rows<T, N>
        ensures { items_of result ≡ [] }
    {
        Rows {
            items: [blank; N],
            len: 0,
        }
    }

    // All of the items, or the given error where there are more than N. Rows have fixed memory, so no
    // chain can collect into them; they are filled by pushes, here and by their users.
    pub fn from_slice<E: Copy>(items: &[T], blank: T, over: E) -> Result<Rows<T, N>, E>
        ensures value { result_err result ≡ (if nat_le (length items.now) N then None else Some over) }
        ensures made { IfOk result (λ rows. items_of rows ≡ items.now) }
    {
        let mut rows = Rows::new(blank);
        for item in items {
            rows.push(*item, over)?;
        }
        Ok(rows)
    }

    pub fn as_slice(&self) -> &[T]
        ensures { result.now ≡ items_of self.now }
    {
        let all = &self.items[..];
        &all[0..self.len]
    }

    // One item more, or the given error where all places count already.
    pub fn push<E: Copy>(&mut self, item: T, full: E) -> Result<(), E>
        ensures value { result ≡ (if nat_lt (length (items_of self.old)) N then Ok tt else Err full) }
        ensures after { items_of self.new ≡ (if is_ok result then items_of self.old ++ (item ∷ []) else items_of self.old) }
    {
        if self.len == N {
            return Err(full);
        }
        self.items[self.len] = item;
        self.len += 1;
        Ok(())
    }

    pub(crate) fn clear(&mut self)
        ensures { items_of self.new ≡ [] }
    {
        self.len = 0;
    }

    // The items for which `keep` answers true, in their order.
    pub(crate) fn retain<F: Fn(&T) -> bool>(&mut self, keep: F)
        requires { F.IsAlwaysCallable keep }
        ensures kept { (p : T → Bool) → Answers F.Fn keep p → items_of self.new ≡ filter p (items_of self.old) }
        ensures ordered { (key : T → ℕ) → ascends key (items_of self.old) ≡ true → ascends key (items_of self.new) ≡ true }
    {
        let all = *self;
        self.len = 0;
        for item in all.as_slice() {
            if keep(item) {
                let _ = self.push(*item, ());
            }
        }
    }
}
