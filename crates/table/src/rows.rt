// Up to N items by value: the first `len` places count. An array and a length, since no call of a worker
// may fail for want of memory; the kit's ArrayVec is no Copy, as the values made of these rows are.
ghost use Rattle.std.specs.Prelude.{◌≡◌, ◌≤◌, length};

mod methods;

#[derive(Copy)]
pub struct Rows<T, const N: usize> {
    pub(crate) items: [T; N],
    pub(crate) len: usize,
    ghost whole: { length items ≡ N },
    ghost within: { len ≤ N },
}
