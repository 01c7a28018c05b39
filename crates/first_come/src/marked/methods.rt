//! A marked list is made, asked and added to.
ghost use Rattle.std.specs.Prelude.{◌≡◌, option_map};
ghost use Rattle.std.specs.List.{slice_get};
ghost use Rattle.first_come.specs.Arrivals.{Distinct, InOrderOfArrival, has, arrived, kept, keep};
ghost use Rattle.first_come.specs.Marks.{with_mark};
ghost use Rattle.first_come.specs.MarkedContents.{marked_contents, marked_lender};

use super::MarkedList;
use crate::list::FirstCome;
use crate::mark::Mark;

impl<'a, T: Mark + Drop, const N: usize> MarkedList<'a, T, N> {
    /// An empty list over the lent places, with no mark set.
    pub fn new(places: &'a mut [T]) -> MarkedList<'a, T, N>
        ensures listed { marked_contents result ≡ kept places.old 0 }
        ensures lender { marked_lender result ≡ places.entry.ghost_name }
    {
        MarkedList {
            list: FirstCome::new(places),
            marks: [false; N],
        }
    }

    /// How many items are listed.
    pub fn len(&self) -> usize
        ensures { result ≡ (marked_contents self.now).len }
    {
        self.list.len()
    }

    /// Whether an item that is the same is listed.
    pub fn holds(&self, item: &T) -> bool
        ensures { result ≡ has T.eq (arrived (marked_contents self.now)) item.now }
    {
        match item.mark() {
            Some(mark) if mark < N => self.marks[mark],
            _ => self.list.holds(item),
        }
    }

    /// The item at a place, if one is listed there.
    pub fn get(&self, place: usize) -> Option<&T>
        ensures { option_map (λ item. item.now) result ≡ slice_get (arrived (marked_contents self.now)) place }
    {
        self.list.get(place)
    }

    /// The items in order of arrival.
    pub fn as_slice(&self) -> &[T]
        ensures { result.now ≡ arrived (marked_contents self.now) }
    {
        self.list.as_slice()
    }

    /// Lists the item, unless one that is the same is listed or no place is left.
    pub fn list(&mut self, item: T)
        ensures kept { marked_contents self.new ≡ keep T.eq (marked_contents self.old) item }
        ensures lender { marked_lender self.new ≡ marked_lender self.old }
        ensures once { Distinct T.eq (arrived (marked_contents self.new)) }
        ensures in_order { InOrderOfArrival T.eq (marked_contents self.old) item (marked_contents self.new) }
    {
        let mark = item.mark();
        if !self.holds(&item) && self.list.put(item).is_some() {
            set_mark(&mut self.marks, mark);
        }
    }
}

/// Sets the mark, if the table has it.
fn set_mark(marks: &mut [bool], mark: Option<usize>)
    ensures { marks.new ≡ with_mark marks.old mark }
{
    // By the index, since behind `get_mut` a proof knows no more than the length.
    if let Some(mark) = mark
        && mark < marks.len()
    {
        marks[mark] = true;
    }
}
