//! The bound of a symbol, joined from what was gathered.

ghost use Rattle.std.specs.Prelude.{◌≡◌, ◌*◌, Some, None, if◌then◌else◌};
ghost use Rattle.unroll_bound.specs.SizeRules.{lesser as lesser_of, share as share_of};

use crate::loop_uses::LoopUse;
use crate::rules::{lesser, share};
use target_desc::Target;

/// How often all stages together have room for so much, of which each has so many.
fn stages_share(stages: u8, limit: u64, amount: u128) -> Option<u128>
    ensures { result ≡ share_of (stages * limit) amount }
{
    share(u128::from(stages) * u128::from(limit), amount)
}

/// As many as there are stages, where a location is shared.
fn shared_share(shared: bool, stages: u8) -> Option<u128>
    ensures { result ≡ (if shared then Some stages else None) }
{
    if shared {
        Some(u128::from(stages))
    } else {
        None
    }
}

/// The bound that the units in loops over a symbol give it, and those that name registers whose cells it counts.
pub fn units_bound(one: LoopUse, cells: Option<u128>, target: &Target) -> Option<u128>
    ensures { result
        ≡ lesser_of (share_of (target.now.stages * target.now.stateful) one.stateful)
        (lesser_of (share_of (target.now.stages * target.now.stateless) one.stateless)
        (lesser_of (share_of (target.now.stages * target.now.memory_bits) one.memory)
        (lesser_of (if one.shared then Some target.now.stages else None) cells))) }
{
    let stateful = stages_share(target.stages, target.stateful, one.stateful);
    let stateless = stages_share(target.stages, target.stateless, one.stateless);
    let memory = stages_share(target.stages, target.memory_bits, one.memory);
    let shared = shared_share(one.shared, target.stages);
    lesser(
        stateful,
        lesser(stateless, lesser(memory, lesser(shared, cells))),
    )
}
