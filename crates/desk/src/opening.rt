//! The opening of a sheet: its model and its detector.
ghost use Rattle.std.specs.Prelude.{◌≡◌, length, IfOk, Ok};
ghost use Rattle.sheet.specs.Commands.{commands, item_of};
ghost use Rattle.desk.specs.InOrder.{ModelIsSealed, StandsInOrder};
ghost use Rattle.desk.specs.ModelPart.{stop_at};
ghost use Rattle.desk.specs.Openings.{behind_model, opened_by, opening};
ghost use Rattle.desk.specs.DetectorPart.{chosen_at};
ghost use Rattle.detectors.specs.Shipping.{made_told, model_told, MadeMeansWhatIsTold};
ghost use Rattle.desk.specs.Told.{DetectorDecides, DetectorIsLawful, DetectorMeansWhatIsTold, model_part_told, opening_told};

use crate::detector_part::make_detector;
use crate::model_part::{SealedAt, read_model};
use crate::stage::Stage;
use detectors::shipped::Shipped;
use detectors::unmade::Unmade;
use model::in_hand::NamingVariables;
use model::sealed::Model;
use refusal::Refusal;
use sheet::{Placed, command_at};
use std::alloc::{AllocError, Global};

/// The longest sheet, in bytes.
const LONGEST: usize = 65_536;

/// A refusal that ends the run, and its place on the sheet.
#[derive(Clone, Copy, Debug, PartialEq, Eq)]
pub struct Stop {
    pub refusal: Refusal,
    pub place: usize,
}

impl Stop {
    /// A refusal of what stands at a place of the sheet. A sheet that ends too early is told at its end.
    pub(crate) fn at(end: usize, place: usize, refusal: Refusal) -> Stop
        ensures { result ≡ stop_at end place refusal }
    {
        match refusal {
            Refusal::SheetEnds => Stop {
                refusal,
                place: end,
            },
            _ => Stop { refusal, place },
        }
    }
}

/// How a sheet opens.
#[derive(Drop)]
pub enum Opening {
    /// It is refused before its model is sealed.
    Unsealed(Stop),
    /// Its model is sealed, and it is refused before a detector is made.
    Unchosen { model: Model, stop: Stop },
    /// Its detector is made, which carries the model; the orders on a book begin at the place `orders`, if there are any.
    Orders { detector: Shipped, orders: usize },
}

/// Carries out a sheet up to its detector.
#[tactic(auto, using(crate::proofs::SheetOpens::every_detector_lawful))]
pub fn open_sheet(heap: Global, sheet: &[u8]) -> Result<Opening, AllocError>
    ensures outcome { IfOk result (λ o. opening_told o ≡ opening sheet.now) }
    ensures sealed { IfOk result (λ o. ModelIsSealed (opening_told o)) }
    ensures in_order { IfOk result (λ o. StandsInOrder (commands sheet.now) (opening_told o)) }
    ensures meaning { IfOk result DetectorMeansWhatIsTold }
    ensures lawful { IfOk result DetectorIsLawful }
    ensures decides { IfOk result DetectorDecides }
{
    if sheet.len() > LONGEST {
        let stop = Stop {
            refusal: Refusal::TooMany,
            place: LONGEST,
        };
        return Ok(Opening::Unsealed(stop));
    }
    let blank = Stage::Variables(NamingVariables::new(heap)?);
    match read_model(blank, sheet) {
        Ok(sealed) => open_behind(heap, sealed, sheet),
        Err(stop) => Ok(Opening::Unsealed(stop)),
    }
}

/// A sheet whose model is sealed, with what the command behind it comes to.
fn open_behind(heap: Global, sealed: SealedAt, sheet: &[u8]) -> Result<Opening, AllocError>
    ensures told { IfOk result (λ o. opening_told o ≡ opened_by (length sheet.now) (model_part_told sheet.now (Ok sealed))) }
    ensures meaning { IfOk result DetectorMeansWhatIsTold }
{
    let SealedAt { model, next } = sealed;
    let Some(found) = command_at(sheet, next) else {
        let stop = Stop::at(sheet.len(), next, Refusal::SheetEnds);
        return Ok(Opening::Unchosen { model, stop });
    };
    let made = make_detector(heap, model, found.command)?;
    Ok(open_made(made, &found, sheet.len()))
}

/// A sheet with what the command found behind its model made: the detector, behind which its orders begin, or a refusal.
fn open_made(made: Result<Shipped, Unmade>, found: &Placed, end: usize) -> Opening
    ensures told { opening_told result ≡ behind_model (model_told made) (chosen_at end (item_of found.now) (made_told made)) }
    ensures meaning { MadeMeansWhatIsTold made → DetectorMeansWhatIsTold result }
{
    match made {
        Ok(detector) => Opening::Orders {
            detector,
            orders: found.next,
        },
        Err(Unmade { model, refusal }) => {
            let stop = Stop::at(end, found.place, refusal);
            Opening::Unchosen { model, stop }
        }
    }
}
