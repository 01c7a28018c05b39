//! A row gives each of 32 variables an entry: a value, or open.
ghost use Rattle.std.specs.Prelude.{◌≡◌, length};

pub mod methods;

/// An entry for each variable that a model may have.
#[derive(Clone, Copy, Debug)]
pub struct Row {
    pub(crate) entries: [Option<u8>; 32],
    ghost full: { length entries ≡ 32 },
}
