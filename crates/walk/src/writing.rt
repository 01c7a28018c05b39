//! A plan is laid at the front of its buffer.
ghost use Rattle.std.specs.Prelude.{◌≡◌, ℕ, ◌<◌, ◌≤◌, cond, List, [], ◌∷◌, ◌++◌, length, Ok, Err, Result, nat_le, nat_lt};
ghost use Rattle.refusal.specs.declared.Refusal.TheVariants.{BufferTooShort};
ghost use Rattle.walk.specs.Walks.{way, planned};
ghost use Rattle.lists.specs.Fronts.{over};
ghost use Rattle.walk.specs.Answers.{outcome_plan};
ghost use Rattle.walk.specs.WorkLists.{Rooted};

use crate::walked::Walked;
use refusal::Refusal;

/// Writes the moves that led to the state at a place, and behind them one more, and tells how many there are. A buffer that is too short is
/// left as it was.
pub(crate) fn write_plan(
    listed: &[Walked],
    from: usize,
    by: u8,
    plan: &mut [u8],
) -> Result<usize, Refusal>
    requires rooted { Rooted listed.now }
    requires within { from < length listed.now }
    ensures answer { result ≡ cond (nat_le (length (way from listed.now from ++ by ∷ [])) (length plan.old)) (Ok (length (way from listed.now from ++ by ∷ []))) (Err BufferTooShort) }
    ensures plan { plan.new ≡ outcome_plan plan.old (planned (way from listed.now from ++ by ∷ [])) }
{
    let count = count_moves(listed, from);
    if !has_room(plan, count) {
        return Err(Refusal::BufferTooShort);
    }
    write_moves(listed, from, count, plan);
    plan[count] = by;
    Ok(count + 1)
}

/// Whether the plan has room for one move more than so many.
fn has_room(plan: &[u8], count: usize) -> bool
    ensures { result ≡ nat_lt count (length plan.now) }
{
    count < plan.len()
}

/// How many moves led to the state at a place.
fn count_moves(listed: &[Walked], from: usize) -> usize
    requires rooted { Rooted listed.now }
    requires within { from < length listed.now }
    ensures { result ≡ length (way from listed.now from) }
{
    let mut count = 0;
    let mut place = from;
    while place > 0 {
        count += 1;
        place = listed[place].from;
    }
    count
}

/// Writes the moves that led to the state at a place, so many, from the last to the first.
fn write_moves(listed: &[Walked], from: usize, count: usize, plan: &mut [u8])
    requires rooted { Rooted listed.now }
    requires within { from < length listed.now }
    requires counted { count ≡ length (way from listed.now from) }
    requires fits { count ≤ length plan.old }
    ensures { plan.new ≡ over (way from listed.now from) plan.old }
{
    let mut left = count;
    let mut place = from;
    while place > 0 {
        let walked = listed[place];
        left -= 1;
        plan[left] = walked.by;
        place = walked.from;
    }
}
