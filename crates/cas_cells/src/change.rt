//! The change of a cell that is under way.
ghost use Rattle.std.specs.Prelude.{◌≡◌, Some, None};
ghost use Rattle.cas_cells.specs.UnderWay.{change_held, staged_in, IsWrittenOver, KeepsOthers};

/// A change of a cell. The spare of the cell is closed.
#[derive(Drop)]
pub struct Change {
    pub cell: u32,
    pub step: Step,
}

/// How far a change has come.
#[derive(Drop)]
pub enum Step {
    /// The spare is closed.
    Closed,
    /// A payload was written into the spare.
    Written(Staged),
}

/// A payload that was written into a spare. Where it is not kept there it was written over since, and is written again before the
/// spare is opened.
#[derive(Drop)]
pub struct Staged {
    pub payload: Vec<u8>,
    pub kept: bool,
}

/// Takes the written payload out of a change, which is then no longer under way.
pub fn take_staged(change: &mut Option<Change>, cell: u32) -> Staged
    requires { change_held change.old ≡ Some (cell, Some (staged_in (change_held change.old))) }
    ensures taken { change.old ≡ Some (record { cell = cell; step = Step.Written result }) }
    ensures gone { change.new ≡ None }
{
    match change.take() {
        Some(
            Change {
                cell: _,
                step: Step::Written(staged),
            },
        ) => staged,
        _ => unreachable!(),
    }
}

/// Marks a written payload of this cell as written over.
pub fn write_over(change: &mut Option<Change>, cell: u32)
    ensures held { change_held change.new ≡ change_held change.old }
    ensures over { IsWrittenOver cell change.new }
    ensures others { KeepsOthers cell change.old change.new }
{
    *change = match change.take() {
        Some(
            Change {
                cell: at,
                step: Step::Written(staged),
            },
        ) if at == cell => Some(Change {
            cell: at,
            step: Step::Written(Staged {
                payload: staged.payload,
                kept: false,
            }),
        }),
        other => other,
    };
}
