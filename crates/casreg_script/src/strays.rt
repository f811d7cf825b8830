//! Late frames that stray in by themselves.

ghost use Rattle.std.specs.Prelude.{◌≡◌};
ghost use Rattle.cas_model.specs.View.{meaning};
ghost use Rattle.casreg_script.specs.Frames.Conditions.{NetworkView};
ghost use Rattle.casreg_script.specs.Frames.Network.{IsNetwork, Through};
ghost use Rattle.casreg_script.specs.Frames.Strays.{LetsStrayIn, KeepsUnderWay};

use crate::events::stray;
use crate::network::Network;
use cas_disk::Disk;
use cas_slot::Shelf;
use cas_world::World;

/// Lets the late frame in that the network names, if it names one. One that the world refuses is passed over.
pub(crate) fn let_in<S: Shelf, V: Disk>(world: &mut World<S, V>, network: &mut Network)
    requires network { (by : NetworkView) × IsNetwork network.old by }
    ensures lets_in { Through network.old network.new
        (λ by next. LetsStrayIn (meaning S.Shelf V.Disk) by world.old next world.new) }
    ensures network { (by : NetworkView)
        → IsNetwork network.old by → (next : NetworkView) × IsNetwork network.new next }
    ensures under_way { KeepsUnderWay world.old world.new }
{
    if let Some(place) = network.stray(world.late()) {
        stray(world, place as u64);
    }
}
