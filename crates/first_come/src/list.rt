//! The first-come list over a lent slice.
ghost use Rattle.std.specs.Prelude.{◌≤◌, length, take};
ghost use Rattle.first_come.specs.Arrivals.{Distinct, distinct_prop};

pub mod methods;

/// Items in order of arrival, no two of them the same, in the first `len` of the lent places. Whoever lends them gets them back, so
/// that there is no `Vec`. The bound stands on the struct, since what it keeps (`once`) speaks of sameness.
#[derive(Drop)]
pub struct FirstCome<'a, T: Eq> {
    places: &'a mut [T],
    len: usize,
    ghost fits: { len ≤ length places.now },
    ghost once: { Distinct T.eq (take len places.now) } by { distinct_prop T.eq (take len places.now) },
}
