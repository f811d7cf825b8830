//! One read of a key that writes nothing, from the operator's call to its answer.

ghost use Rattle.std.specs.Prelude.{◌≡◌, List, IfOk, OnErr};
ghost use Rattle.cas_model.specs.Council.{IsAtRest};
ghost use Rattle.cas_model.specs.View.{meaning};
ghost use Rattle.cas_world.specs.Calls.Beginning.{HasNoCall};
ghost use Rattle.casreg_script.specs.Frames.Conditions.{NetworkView};
ghost use Rattle.casreg_script.specs.Exchanges.Exchanges.{KeepsCalls};
ghost use Rattle.casreg_script.specs.Exchanges.Reads.{IsReadLine};
ghost use Rattle.casreg_script.specs.Frames.Network.{IsNetwork, Through};

use crate::exchange::exchange;
use crate::network::Network;
use cas_change::Key;
use cas_disk::Disk;
use cas_record::{Asked, OpAnswer, ReadAnswer};
use cas_slot::Shelf;
use cas_world::{Exchange, Gathered, World};
use std::alloc::AllocError;

/// Asks each member what it keeps for the key, as a call of the operator, and gives what they agree on, or why they agree on nothing. What
/// becomes of each frame the network says. An `Err` comes only before the call, and all is as before.
pub fn read<S: Shelf, V: Disk>(
    world: &mut World<S, V>,
    network: &mut Network,
    key: &Key,
) -> Result<ReadAnswer, AllocError>
    requires idle { HasNoCall world.old 0 }
    requires quiet { IsAtRest world.old.council }
    requires network { (by : NetworkView) × IsNetwork network.old by }
    ensures read { IfOk result (λ answer. Through network.old network.new
        (λ by next. IsReadLine (meaning S.Shelf V.Disk)
        by key.now world.old answer next world.new)) }
    ensures err { OnErr result ((world.new ≡ world.old) × (network.new ≡ network.old)) }
    ensures network { (by : NetworkView)
        → IsNetwork network.old by → (next : NetworkView) × IsNetwork network.new next }
    ensures quiet { IsAtRest world.new.council }
    ensures calls { KeepsCalls world.old world.new }
{
    let asked = Asked::Read(key.copy()?);
    let what = Exchange::Read(key.copy()?);
    let key = key.copy()?;
    if let Err(refusal) = world.order(&asked) {
        return Ok(ReadAnswer::Stopped(refusal));
    }
    match exchange(world, network, what) {
        Ok(Gathered::Read { agreement, found }) => {
            match world.tell(OpAnswer::Probed { key, found }) {
                OpAnswer::Probed { key, found } => Ok(ReadAnswer::of(key, agreement, found)),
                _ => unreachable!(),
            }
        }
        Ok(_) => unreachable!(),
        Err(stopped) => match world.tell(stopped) {
            OpAnswer::Stopped(answer) => Ok(ReadAnswer::Stopped(answer)),
            _ => unreachable!(),
        },
    }
}
