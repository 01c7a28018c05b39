//! How many there are of something.

use std::fmt;

/// So many of something.
#[derive(Clone, Copy)]
pub struct Count(pub usize, pub &'static str);

impl fmt::Display for Count {
    fn fmt<W: fmt::Write>(&self, f: &mut fmt::Formatter<W>) -> fmt::Result {
        let Count(number, what) = *self;
        match number {
            1 => write!(f, "1 {what}"),
            _ => write!(f, "{number} {what}s"),
        }
    }
}
