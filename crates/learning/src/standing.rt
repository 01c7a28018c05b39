//! How a part stands to a move.
ghost use Rattle.std.specs.Prelude.{◌≡◌, ◌≤◌, ◌++◌, true, IfSome, length};
ghost use Rattle.std.specs.List.{position_from};
ghost use Rattle.model.specs.Rows.{contained};
ghost use Rattle.learning.specs.Standings.{Covering, CoversAt, Stands, StandsAt, after_growth, gives_entry, is_known, leads_out};

use detector::Detector;
use model::entry::{entry_kept, next_entry};
use model::moves::Move;
use model::row::Row;
use rules::set::covers;

/// How a part stands to a move in the book's rows with all parts.
#[derive(Clone, Copy)]
pub(crate) enum Standing {
    /// Not known. The part at this place is tried first: it covered the progression until it grew, or is the lowest.
    Unknown(u8),
    /// The move is not applicable, or a row of the book covers the progression. No part that grows changes that.
    Stays,
    /// The part at this place covers the progression.
    Covered(u8),
    /// The detector calls the progression dead.
    Dead,
    /// The move leads out.
    LeadsOut,
}

/// A part has grown: the one at this place has this entry of the variable more than it had.
#[derive(Clone, Copy)]
pub(crate) struct Growth {
    pub(crate) place: usize,
    pub(crate) variable: usize,
    pub(crate) entry: Option<u8>,
}

impl Standing {
    /// Whether the move leads out.
    pub(crate) fn leads_out(self) -> bool
        ensures { result ≡ leads_out self }
    {
        matches!(self, Standing::LeadsOut)
    }

    /// What stays known when a part has grown: whether that is the part itself is told, and the part is given as it is now.
    ///
    /// What is contained in a progression is contained in that of a larger part, and a part that grows covers no more than it did. So of other parts only
    /// what the grown one covered can change, and that is told by the entry alone. A verdict on another progression is asked again.
    pub(crate) fn after_growth(
        self,
        growth: &Growth,
        itself: bool,
        part: &Row,
        step: &Move,
    ) -> Standing
        ensures { result ≡ after_growth growth.now itself part.now step.now self }
    {
        match self {
            Standing::Covered(place) if usize::from(place) == growth.place => {
                if gives_entry(growth, part, step) {
                    self
                } else {
                    Standing::Unknown(place)
                }
            }
            Standing::Dead | Standing::LeadsOut if itself => Standing::Unknown(0),
            _ => self,
        }
    }
}

/// Whether the move makes of the part a row that has the entry of the grown part.
fn gives_entry(growth: &Growth, part: &Row, step: &Move) -> bool
    ensures { result ≡ gives_entry growth.now part.now step.now }
{
    let variable = growth.variable;
    let next = next_entry(
        step.effects.entry(variable),
        part.entry(variable),
        step.conditions.entry(variable),
    );
    entry_kept(growth.entry, next)
}

/// The place of a part, from this place on, that is contained in the row.
fn covering_from(parts: &[Row], row: &Row, first: usize) -> Option<usize>
    ensures { IfSome result (λ place. CoversAt parts.now row.now place) }
{
    (first..parts.len()).find(|place| parts[*place].contained_in(row))
}

/// The place of the first part that is contained in the row.
fn first_covering(parts: &[Row], row: &Row) -> Option<usize>
    ensures found { IfSome result (λ place. CoversAt parts.now row.now place) }
    ensures first { result ≡ position_from (λ part. contained part row.now) 0 parts.now }
{
    parts.iter().position(|part| part.contained_in(row))
}

/// The place of a part that is contained in the row. Those from the place `first` on are tried first.
#[tactic(auto, using(crate::proofs::Covering::none_covers))]
fn covering(parts: &[Row], row: &Row, first: usize) -> Option<usize>
    ensures { Covering parts.now row.now result }
{
    match covering_from(parts, row, first) {
        None => first_covering(parts, row),
        found => found,
    }
}

/// How a part with this progression stands to the move.
fn look_at<D: Detector>(
    detector: &D,
    rows: &[Row],
    parts: &[Row],
    next: &Row,
    first: u8,
) -> Standing
    requires { length parts.now ≤ 256 }
    ensures known { is_known result ≡ true }
    ensures right { StandsAt (D.dead detector.now) rows.now parts.now next.now result }
{
    // The sets first: a verdict may cost much more.
    match covering(parts, next, usize::from(first)) {
        Some(place) => Standing::Covered(place as u8),
        None if covers(rows, next) => Standing::Stays,
        None if detector.verdict(next).is_dead() => Standing::Dead,
        None => Standing::LeadsOut,
    }
}

/// How the part stands to the move, if that is not known.
pub(crate) fn look<D: Detector>(
    detector: &D,
    rows: &[Row],
    parts: &[Row],
    part: &Row,
    step: &Move,
    standing: Standing,
) -> Standing
    requires few { length parts.now ≤ 256 }
    requires right { Stands (D.dead detector.now) rows.now parts.now part.now step.now standing }
    ensures known { is_known result ≡ true }
    ensures right { Stands (D.dead detector.now) rows.now parts.now part.now step.now result }
{
    match standing {
        Standing::Unknown(first) if step.applicable(part) => {
            look_at(detector, rows, parts, &step.progression(part), first)
        }
        Standing::Unknown(_) => Standing::Stays,
        known => known,
    }
}
