//! How a move of a candidate stands.

/// What is known of a move of a candidate, by the marks of a round or of an earlier one.
#[derive(Clone, Copy)]
pub(crate) enum Standing {
    /// Nothing yet.
    Unseen,
    /// It is not applicable, or its progression is called dead: it will never lead out.
    Stays,
    /// The candidate at this place is contained in its progression, and no unmarked one before that.
    CoveredBy(u8),
}
