//! The small models, and detectors over them.

use crate::sketch::{Entry, Named, Sketch, Step};
use anyhow::anyhow;
use detectors::bare::Bare;
use detectors::making::make;
use detectors::shipped::Shipped;
use model::sealed::Model;
use std::alloc::Global;

static LANE_AND_DOCK: [Named; 2] = [(*b"LANE    ", 3), (*b"DOCK    ", 3)];

const LANE_UP_1: Step<'static> = Step {
    name: *b"lane-up1",
    conditions: &[(0, 0)],
    effects: &[(0, 1)],
};

const LANE_UP_2: Step<'static> = Step {
    name: *b"lane-up2",
    conditions: &[(0, 1)],
    effects: &[(0, 2), (1, 0)],
};

/// It leaves the dock as it is.
const FREED_LANE_UP_2: Step<'static> = Step {
    name: *b"lane-up2",
    conditions: &[(0, 1)],
    effects: &[(0, 2)],
};

const DOCK_UP_1: Step<'static> = Step {
    name: *b"dock-up1",
    conditions: &[(1, 0)],
    effects: &[(1, 1)],
};

const DOCK_UP_2: Step<'static> = Step {
    name: *b"dock-up2",
    conditions: &[(1, 1)],
    effects: &[(1, 2), (0, 0)],
};

/// From lane 0 and dock 0 to lane 2 and dock 2, by these moves.
fn to_2_2(heap: Global, steps: &[Step]) -> anyhow::Result<Model> {
    let sketch = Sketch {
        variables: &LANE_AND_DOCK,
        steps,
        start: &[(0, 0), (1, 0)],
        goal: &[(0, 2), (1, 2)],
    };
    sketch.sealed(heap)
}

/// Each of the two last steps undoes the other.
fn lane_model(heap: Global) -> anyhow::Result<Model> {
    to_2_2(heap, &[LANE_UP_1, LANE_UP_2, DOCK_UP_1, DOCK_UP_2])
}

/// The lane model over the bare detector.
pub(crate) fn lane(heap: Global) -> anyhow::Result<Bare> {
    Ok(Bare::new(lane_model(heap)?))
}

/// The lane model over the detector of a kind, 0 to 2.
pub(crate) fn lane_over(heap: Global, kind: u8, operands: [u8; 3]) -> anyhow::Result<Shipped> {
    match make(heap, lane_model(heap)?, kind, operands)? {
        Ok(detector) => Ok(detector),
        Err(unmade) => Err(anyhow!("a detector is refused by {}", unmade.refusal.number())),
    }
}

/// As the lane model, but only the last step of the dock undoes the other.
pub(crate) fn free(heap: Global) -> anyhow::Result<Bare> {
    let model = to_2_2(heap, &[LANE_UP_1, FREED_LANE_UP_2, DOCK_UP_1, DOCK_UP_2])?;
    Ok(Bare::new(model))
}

/// The gate opens only with the key, and no move brings the key.
pub(crate) fn key(heap: Global) -> anyhow::Result<Bare> {
    let open_it = Step {
        name: *b"open-it ",
        conditions: &[(1, 1)],
        effects: &[(0, 1)],
    };
    let sketch = Sketch {
        variables: &[(*b"GATE    ", 2), (*b"KEY     ", 2)],
        steps: &[open_it],
        start: &[(0, 0), (1, 0)],
        goal: &[(0, 1)],
    };
    Ok(Bare::new(sketch.sealed(heap)?))
}

/// A model without variables and moves. Its one state contains the goal.
pub(crate) fn nothing(heap: Global) -> anyhow::Result<Bare> {
    let sketch = Sketch {
        variables: &[],
        steps: &[],
        start: &[],
        goal: &[],
    };
    Ok(Bare::new(sketch.sealed(heap)?))
}

/// Each of nine switches, on.
static ON: [Entry; 9] = [
    (1, 1),
    (2, 1),
    (3, 1),
    (4, 1),
    (5, 1),
    (6, 1),
    (7, 1),
    (8, 1),
    (9, 1),
];

/// The move that puts a switch on, whether it is on already or not.
fn put_on(effects: &[Entry]) -> Step<'_> {
    Step {
        name: *b"put-on  ",
        conditions: &[],
        effects,
    }
}

/// A lamp that no move lights, and these switches, each with a move that puts it on.
fn switches(heap: Global, on: &[Entry]) -> anyhow::Result<Bare> {
    let steps: Vec<Step> = on.chunks(1).map(put_on).collect(heap)?;
    let mut variables = vec![in heap; (*b"LAMP    ", 2)]?;
    let mut start = vec![in heap; (0, 0)]?;
    for (switch, _) in on {
        variables.push((*b"SWITCH  ", 2))?;
        start.push((*switch, 0))?;
    }
    let sketch = Sketch {
        variables: variables.as_slice(),
        steps: steps.as_slice(),
        start: start.as_slice(),
        goal: &[(0, 1)],
    };
    Ok(Bare::new(sketch.sealed(heap)?))
}

/// From its start 256 states are reached.
pub(crate) fn eight_switches(heap: Global) -> anyhow::Result<Bare> {
    switches(heap, &ON[..8])
}

/// From its start 512 states are reached.
pub(crate) fn nine_switches(heap: Global) -> anyhow::Result<Bare> {
    switches(heap, &ON)
}
