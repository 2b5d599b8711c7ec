//! What is read of a file.

/// A file that was read: how many fluents or places there are, the start, the actions and the goals.
#[derive(Drop)]
pub struct File<S, G> {
    pub size: u8,
    pub start: u64,
    pub actions: Vec<S>,
    pub goals: Vec<G>,
}
