//! The answer to an order.
ghost use Rattle.std.specs.Prelude.{◌≡◌};
ghost use Rattle.book.specs.Probes.{probed_told};
ghost use Rattle.book.specs.Verdicts.{judged_told};
ghost use Rattle.orders.specs.Orders.{answer_told, judged, offered, wrote};
ghost use Rattle.orders.specs.Runs.{probe_told, settle_told, told_by, told_with_row};

use book::probed::Probed;
use book::refused::Refused;
use book::settled::Settled;
use detector::verdict::Verdict;
use refusal::Refusal;

/// What a book answers to an order.
#[derive(Clone, Copy, Debug, PartialEq, Eq)]
pub enum Answer {
    /// To a judge: the verdict.
    Judged(Verdict),
    /// To a probe.
    Probed(Probed),
    /// To an offer: so many rows are added.
    Offered(usize),
    /// To a settle.
    Settled(Settled),
    /// To a write: so many bytes.
    Written(usize),
    /// The order is refused.
    Refused(Refused),
}

impl Answer {
    /// The answer to a judge, of what the book's call comes to.
    pub fn judged(came: Result<Verdict, Refusal>) -> Answer
        ensures { answer_told result ≡ told_by judged (judged_told came) }
    {
        match came {
            Ok(verdict) => Answer::Judged(verdict),
            Err(refusal) => Answer::Refused(refusal.into()),
        }
    }

    /// The answer to a probe.
    pub fn probed(came: Result<Probed, Refusal>) -> Answer
        ensures { answer_told result ≡ told_by probe_told (probed_told came) }
    {
        match came {
            Ok(probed) => Answer::Probed(probed),
            Err(refusal) => Answer::Refused(refusal.into()),
        }
    }

    /// The answer to an offer.
    pub fn offered(came: Result<usize, Refused>) -> Answer
        ensures { answer_told result ≡ told_with_row offered came }
    {
        match came {
            Ok(added) => Answer::Offered(added),
            Err(refused) => Answer::Refused(refused),
        }
    }

    /// The answer to a settle.
    pub fn settled(came: Result<Settled, Refused>) -> Answer
        ensures { answer_told result ≡ told_with_row settle_told came }
    {
        match came {
            Ok(settled) => Answer::Settled(settled),
            Err(refused) => Answer::Refused(refused),
        }
    }

    /// The answer to a write.
    pub fn written(came: Result<usize, Refusal>) -> Answer
        ensures { answer_told result ≡ told_by wrote came }
    {
        match came {
            Ok(length) => Answer::Written(length),
            Err(refusal) => Answer::Refused(refusal.into()),
        }
    }
}
