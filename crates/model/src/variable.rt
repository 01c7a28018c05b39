//! The variables of a model.

/// A variable takes the values from 0 to its size minus 1.
#[derive(Clone, Copy, Debug)]
pub struct Variable {
    pub name: [u8; 8],
    pub size: u8,
}
