//! A phase of the record.

/// A phase of a good run: the look of the record with which it begins, where its looks end, and its limit.
#[derive(Clone, Copy)]
pub struct Beat {
    pub begin: usize,
    pub end: usize,
    pub limit: u64,
}
