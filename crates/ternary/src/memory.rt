use std::alloc::AllocError;

/// Lack of memory: an allocation was refused, and nothing else went wrong.
#[derive(Clone, Copy, Debug, PartialEq, Eq)]
pub struct NoMemory;

impl From<AllocError> for NoMemory {
    fn from(_error: AllocError) -> NoMemory {
        NoMemory
    }
}
