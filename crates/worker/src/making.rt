// A worker that could not be made.
use compactions::refusal::Refusal;

// The executor comes back as it was, with the refusal.
#[derive(Drop)]
pub struct Unmade<E> {
    pub executor: E,
    pub refusal: Refusal,
}
