// Messages of one kind that are on their way, and come in any order.
use std::alloc::{AllocError, Global};

/// A message with the number of who it is of or for.
#[derive(Drop)]
pub(crate) struct Sent<T> {
    pub(crate) number: u32,
    pub(crate) message: T,
}

#[derive(Drop)]
pub(crate) struct Pool<T> {
    sent: Vec<Sent<T>>,
}

impl<T: Drop> Pool<T> {
    pub(crate) fn new(alloc: Global) -> Self {
        Pool {
            sent: Vec::new(alloc),
        }
    }

    /// How many there are.
    pub(crate) fn len(&self) -> usize {
        self.sent.len()
    }

    /// Sends one more, which is lost where memory runs out.
    pub(crate) fn put(&mut self, number: u32, message: T) -> Result<(), AllocError> {
        self.sent.push(Sent { number, message })?;
        Ok(())
    }

    /// Takes out the one that the draw is for, if there are any.
    pub(crate) fn take(&mut self, drawn: u32) -> Option<Sent<T>> {
        let count = self.sent.len();
        if count == 0 {
            return None;
        }
        Some(self.sent.swap_remove(drawn as usize % count))
    }
}
