//! A first-come list that is made for its lender, who has the places when it is gone.
ghost use Rattle.std.specs.Prelude.{◌≡◌};
ghost use Rattle.first_come.specs.Arrivals.{kept, keep_all};
ghost use Rattle.first_come.specs.Contents.{contents, lender};

use crate::list::FirstCome;

/// Puts the items into the places, each once and in order of arrival, as far as there is room, and tells how many stand there.
pub fn keep_each_once<T: Eq + Copy>(places: &mut [T], items: &[T]) -> usize
    ensures { kept places.new result ≡ keep_all T.eq (kept places.old 0) items.now }
{
    let mut list = FirstCome::new(places);
    list_all(&mut list, items);
    list.len()
}

/// Lists the items, one after another.
fn list_all<T: Eq + Copy>(list: &mut FirstCome<T>, items: &[T])
    ensures kept { contents list.new ≡ keep_all T.eq (contents list.old) items.now }
    ensures lender { lender list.new ≡ lender list.old }
{
    for item in items {
        list.list(*item);
    }
}
