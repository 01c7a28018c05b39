//! What became of an item that was listed.

/// The answer of a first-come list to an item. Three outcomes of equal standing: a full list is no error of whoever lists.
#[derive(Clone, Copy, Debug)]
pub enum Listed {
    /// One that is the same is there already, at this place.
    Already(usize),
    /// It was added, at this place.
    Added(usize),
    /// There is no place left for it.
    Full,
}
