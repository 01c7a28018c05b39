//! A first-come list with a table of marks, which tells at once whether an item is listed.
ghost use Rattle.first_come.specs.Arrivals.{arrived};
ghost use Rattle.first_come.specs.Contents.{contents};
ghost use Rattle.first_come.specs.Marks.{Agree};

pub mod methods;

use crate::list::FirstCome;
use crate::mark::Mark;

/// A first-come list and the marks of its items: an item that has one of the `N` marks is marked exactly if it is listed.
#[derive(Drop)]
pub struct MarkedList<'a, T: Mark, const N: usize> {
    list: FirstCome<'a, T>,
    marks: [bool; N],
    ghost agree: { Agree T.eq T.mark marks (arrived (contents list)) },
}
