//! A change that nothing stands against: its line in a script is answered done. And what a read answers along a script is so.
//!
//! Definitions and laws, and no code that runs. A law is the contract of a function that does nothing.
#![tactic(auto)]

ghost use Rattle.cas_model.specs.View.{meaning};
ghost use Rattle.casreg_progress.specs.Faults.{FaultlessLinesStayUp};
ghost use Rattle.casreg_progress.specs.Lines.{ReadyLinesAreDone};
ghost use Rattle.casreg_progress.specs.Openings.{FirstLinesAreDone};
ghost use Rattle.casreg_progress.specs.Runs.{LinesKeepRemembered, LinesKeepSafe, RunsAreDone, RunsReadSo};

use cas_disk::Disk;
use cas_slot::Shelf;

/// A script's change line that nothing stands against is answered done, at the ballot of its proposer's next round, or that there was no
/// memory: over deliveries alone, with every member of the era up, none of them with a greater age of the proposer, a ballot for the key
/// above that of the proposer's next round, or no room for the key; with the proposer up, in no round, to halt nowhere, and with ballots
/// left where it holds no promise of the key; with no open call of the caller, and room for a round's marks; and where the members and the
/// proposer are up after the line. They are where no disk of theirs counts a fault in it.
pub fn ready_lines_are_done<S: Shelf, V: Disk>()
    ensures { ReadyLinesAreDone (meaning S.Shelf V.Disk) }
{}

/// So a change that is the first line of a script over a cluster that just opened is answered done, at its proposer's first ballot, or that
/// there was no memory: where the members and the proposer are up before it and after it, and the proposer has ballots left.
pub fn first_lines_are_done<S: Shelf, V: Disk>()
    ensures { FirstLinesAreDone (meaning S.Shelf V.Disk) }
{}

/// A change line in which no disk of a member or of its proposer counts a fault, and whose proposer is to halt nowhere, leaves all of them
/// up that were up before it, whatever it is answered.
pub fn faultless_lines_stay_up<S: Shelf, V: Disk>()
    ensures { FaultlessLinesStayUp (meaning S.Shelf V.Disk) }
{}

/// Each line of a script leaves a safe cluster safe, whatever it asks for and is answered.
pub fn lines_keep_safe<S: Shelf, V: Disk>()
    ensures { LinesKeepSafe (meaning S.Shelf V.Disk) }
{}

/// Each line of a script leaves a remembered cluster remembered, if shelves and disks tell what they keep.
pub fn lines_keep_remembered<S: Shelf, V: Disk>()
    ensures { LinesKeepRemembered (meaning S.Shelf V.Disk) }
{}

/// So along a whole script over a safe cluster, each change line that nothing stood against in the state before it, and
/// after which the members and its proposer are up, was answered done, at the ballot of its proposer's next round, or that there was no
/// memory: whatever went before it.
pub fn runs_are_done<S: Shelf, V: Disk>()
    ensures { RunsAreDone (meaning S.Shelf V.Disk) }
{}

/// Along a whole script over a remembered cluster, what each read was answered is so, if shelves and disks tell what they keep. A state at
/// a ballot above zero is what the history up to that ballot leaves. This history goes on from all that was settled before the line, and
/// begins what is settled behind it. At ballot zero the state is empty, and what was settled before the line leaves the empty state.
pub fn runs_read_so<S: Shelf, V: Disk>()
    ensures { RunsReadSo (meaning S.Shelf V.Disk) }
{}
