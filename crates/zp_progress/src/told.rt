//! Who receives how far the work is.

/// Receives how far work is, from whoever does it.
pub trait Progress {
    /// So much of so much is done.
    fn at(&mut self, done: usize, of: usize);

    /// So much is done, of work whose end is not known.
    fn past(&mut self, done: u64);

    /// Clears what was shown, since a result is about to be written.
    fn clear(&mut self);
}

/// Nobody.
#[derive(Clone, Copy, PartialEq, Eq, Debug, Drop)]
pub struct Unwatched;

impl Progress for Unwatched {
    fn at(&mut self, _done: usize, _of: usize) {}

    fn past(&mut self, _done: u64) {}

    fn clear(&mut self) {}
}
