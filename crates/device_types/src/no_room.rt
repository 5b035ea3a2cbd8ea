//! Want of memory.

/// There was no memory, and the value that a call took is given back.
#[derive(Debug, Drop)]
pub struct NoRoom<T>(pub T);
