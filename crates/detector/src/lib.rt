//! What a detector is: a sealed model, and a set of that model's rows which it calls dead. It is asked two questions.
#![tactic(auto)]

ghost use Rattle.std.specs.Prelude.{◌≡◌, Bool, true};
ghost use Rattle.model.specs.declared.row.Row.{Row as AnyRow};
ghost use Rattle.model.specs.Drafts.{recorded};
ghost use Rattle.model.specs.Records.{ModelRecord, Sealed, row_of_model};
ghost use Rattle.detector.specs.Verdicts.{says_dead};

pub mod asking;
pub mod verdict;

use model::row::Row;
use model::sealed::Model;
use verdict::Verdict;

/// Whoever supplies one says what it means: the record of its model, and its dead set, which has rows of that model only.
///
/// The two laws that a detector has to keep are not asked here: they are a property of its value (`Lawful`).
pub trait Detector {
    ghost carried: { Self → ModelRecord };

    ghost dead: { Self → AnyRow → Bool };

    /// Its sealed model: any count, size, name or entry is asked of that.
    fn model(&self) -> &Model
        ensures { recorded result.now ≡ carried self.now };

    /// Its verdict on a row: dead exactly if the row is in the dead set.
    fn verdict(&self, row: &Row) -> Verdict
        ensures { says_dead result ≡ dead self.now row.now };

    ghost sealed: { (d : Self) → Sealed (carried d) };

    ghost within: { (d : Self) (t : AnyRow) → dead d t ≡ true → row_of_model (carried d) t ≡ true };
}
