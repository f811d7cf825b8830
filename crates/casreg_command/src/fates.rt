//! The fates of a program's callers.

ghost use Rattle.std.specs.Prelude.{◌≡◌, vec_len, IfOk};
ghost use Rattle.casreg_command.specs.Seeds.{AreSeeded};

use cas_fate::Seeded;
use cas_store::VAULTS;
use std::alloc::{AllocError, Global};

/// The fates of the callers, by their numbers from 0 to 16: the seed of each is its caller's number, and none has harmed a frame.
pub fn seeded_fates(alloc: Global) -> Result<Vec<Seeded>, AllocError>
    ensures count { IfOk result (λ fates. vec_len fates ≡ 17) }
    ensures seeded { IfOk result (λ fates. AreSeeded 0 fates.items) }
{
    let mut fates = Vec::with_capacity(alloc, usize::from(VAULTS))?;
    for caller in 0..VAULTS {
        fates.push(Seeded::new(u64::from(caller)))?;
    }
    Ok(fates)
}
