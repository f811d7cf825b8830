//! One probe of a key, from the operator's call to its answer.

ghost use Rattle.std.specs.Prelude.{◌≡◌, List, IfOk, OnErr};
ghost use Rattle.cas_model.specs.Council.{IsAtRest};
ghost use Rattle.cas_model.specs.View.{meaning};
ghost use Rattle.cas_world.specs.Calls.Beginning.{HasNoCall};
ghost use Rattle.casreg_script.specs.Frames.Conditions.{NetworkView};
ghost use Rattle.casreg_script.specs.Exchanges.Exchanges.{KeepsCalls};
ghost use Rattle.casreg_script.specs.Frames.Network.{IsNetwork, Through};
ghost use Rattle.casreg_script.specs.Exchanges.Probes.{IsProbe};

use crate::exchange::exchange;
use crate::network::Network;
use cas_change::Key;
use cas_disk::Disk;
use cas_record::{Asked, OpAnswer};
use cas_slot::Shelf;
use cas_world::{Exchange, World};
use std::alloc::AllocError;

/// Asks each member what it keeps for the key, as a call of the operator, and gives what the operator is told. What becomes of each frame
/// the network says. An `Err` comes only before the call, and all is as before.
pub fn probe<S: Shelf, V: Disk>(
    world: &mut World<S, V>,
    network: &mut Network,
    key: &Key,
) -> Result<OpAnswer, AllocError>
    requires idle { HasNoCall world.old 0 }
    requires quiet { IsAtRest world.old.council }
    requires network { (by : NetworkView) × IsNetwork network.old by }
    ensures probe { IfOk result (λ answer. Through network.old network.new
        (λ by next. IsProbe (meaning S.Shelf V.Disk) by key.now world.old answer next world.new)) }
    ensures err { OnErr result ((world.new ≡ world.old) × (network.new ≡ network.old)) }
    ensures network { (by : NetworkView)
        → IsNetwork network.old by → (next : NetworkView) × IsNetwork network.new next }
    ensures quiet { IsAtRest world.new.council }
    ensures calls { KeepsCalls world.old world.new }
{
    let asked = Asked::Probe(key.copy()?);
    let what = Exchange::Probe(key.copy()?);
    let told = key.copy()?;
    match world.order(&asked) {
        Ok(()) => {
            let answer = match exchange(world, network, what) {
                Ok(gathered) => OpAnswer::Probed {
                    key: told,
                    found: gathered.into_probes(),
                },
                Err(stopped) => stopped,
            };
            Ok(world.tell(answer))
        }
        Err(refusal) => Ok(OpAnswer::Stopped(refusal)),
    }
}
