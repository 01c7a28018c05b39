//! A first-come list is made, asked and added to.
ghost use Rattle.std.specs.Prelude.{◌≡◌, false, option_map};
ghost use Rattle.std.specs.List.{position, slice_get};
ghost use Rattle.first_come.specs.Arrivals.{Distinct, has, arrived, found_at, kept, next_place, put_unless, listed_told, answer, keep, InOrderOfArrival};
ghost use Rattle.first_come.specs.Contents.{contents, lender};

use super::FirstCome;
use crate::listed::Listed;

impl<'a, T: Eq + Drop> FirstCome<'a, T> {
    /// An empty list over the lent places.
    pub fn new(places: &'a mut [T]) -> FirstCome<'a, T>
        ensures empty { contents result ≡ kept places.old 0 }
        ensures lender { lender result ≡ places.entry.ghost_name }
    {
        FirstCome { places, len: 0 }
    }

    /// How many items are listed.
    pub fn len(&self) -> usize
        ensures { result ≡ (contents self.now).len }
    {
        self.as_slice().len()
    }

    /// Whether an item that is the same is listed.
    pub fn holds(&self, item: &T) -> bool
        ensures { result ≡ has T.eq (arrived (contents self.now)) item.now }
    {
        self.place_of(item).is_some()
    }

    /// The place of the item that is the same, if one is listed.
    #[tactic(auto, using(crate::proofs::Places::found_at_position))]
    pub fn place_of(&self, item: &T) -> Option<usize>
        ensures { result ≡ found_at T.eq (arrived (contents self.now)) item.now }
    {
        find(self.as_slice(), item)
    }

    /// The item at a place, if one is listed there.
    pub fn get(&self, place: usize) -> Option<&T>
        ensures { option_map (λ item. item.now) result ≡ slice_get (arrived (contents self.now)) place }
    {
        self.as_slice().get(place)
    }

    /// The items in order of arrival.
    pub fn as_slice(&self) -> &[T]
        ensures { result.now ≡ arrived (contents self.now) }
    {
        &self.places[..self.len]
    }

    /// Lists the item, unless one that is the same is listed or no place is left.
    pub fn list(&mut self, item: T) -> Listed
        ensures answered { listed_told result ≡ answer T.eq (contents self.old) item }
        ensures kept { contents self.new ≡ keep T.eq (contents self.old) item }
        ensures lender { lender self.new ≡ lender self.old }
        ensures once { Distinct T.eq (arrived (contents self.new)) }
        ensures in_order { InOrderOfArrival T.eq (contents self.old) item (contents self.new) }
    {
        if let Some(place) = self.place_of(&item) {
            return Listed::Already(place);
        }
        self.put(item).map_or(Listed::Full, Listed::Added)
    }

    /// Puts an item that is not listed in the next place, and tells which, if one is left.
    pub(crate) fn put(&mut self, item: T) -> Option<usize>
        requires { has T.eq (arrived (contents self.old)) item ≡ false }
        ensures answered { result ≡ next_place (contents self.old) }
        ensures kept { contents self.new ≡ put_unless false (contents self.old) item }
        ensures lender { lender self.new ≡ lender self.old }
    {
        // By the index, since behind `get_mut` a proof knows no more than the length.
        let place = self.len;
        if place == self.places.len() {
            return None;
        }
        self.places[place] = item;
        self.len = place + 1;
        Some(place)
    }
}

/// The first place of an item that is the same.
fn find<T: Eq>(items: &[T], item: &T) -> Option<usize>
    ensures { result ≡ position (λ listed. T.eq listed item.now) items.now }
{
    items.iter().position(|listed| listed == item)
}
