ghost use Rattle.std.proofs.Props.{props};
ghost use Rattle.bootstrap_core.specs.Boot.{BootState, told};
ghost use Rattle.bootstrap_core.specs.Moving.{SameParts};
ghost use Rattle.bus_wire.specs.Booted.{IsLimited};
ghost use Rattle.bootstrap_node.specs.Serving.{no_boot};

use bootstrap_core::{Boot, Replies};
use bus_stores::{BootFault, Keeper, WindowLog};
use bus_wire::Ask;
use event_codec::Shape;
use std::alloc::Global;
use std::marker::{Brand, PhantomData};

/// What a bootstrap was when its serving began, for contracts alone.
pub(crate) trait Start {
    /// Its log, its keeper and its boot mark then.
    ghost start: { BootState };
}

impl Start for Brand {
    ghost start = { no_boot };
}

/// A bootstrap whose log, keeper and boot mark are as they were when its serving began. It holds each time a lock is taken.
#[derive(Drop)]
pub(crate) struct Held<G: WindowLog, K: Keeper, S: Start> {
    pub boot: Boot<G, K>,
    pub of: PhantomData<S>,
    ghost same: { SameParts S.start (told G.state K.state boot) } by { Prim.hlevel props },
}

// What an ask says is within the ranges of its type.
fn limited(ask: &Ask)
    ensures { IsLimited ask.now }
{
    match ask {
        Ask::Stream { max, .. } => {
            let _bound = *max;
        }
        Ask::Start { .. } => {}
        Ask::Scan { max, .. } => {
            let _bound = *max;
        }
        Ask::Target { .. } => {}
        Ask::Catchup { max, .. } => {
            let _bound = *max;
        }
        Ask::Delta { max, .. } => {
            let _bound = *max;
        }
    }
}

impl<G: WindowLog, K: Keeper, S: Start> Replies for Held<G, K, S> {
    ghost use Rattle.bootstrap_node.specs.Serving.{MayReplyStill};

    /// A reply of a bootstrap that is as it was when its serving began.
    ghost may = { λ _ ask bytes. MayReplyStill G.state K.state S.start ask bytes };

    fn answer(
        &mut self,
        alloc: Global,
        ask: &Ask,
        reply: &mut Vec<u8>,
    ) -> Result<Shape, BootFault> {
        limited(ask);
        self.boot.answer(alloc, ask, reply)
    }
}
