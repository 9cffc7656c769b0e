ghost use Rattle.std.specs.Prelude.{◌≡◌, true, [], IfErr, OnOk};
ghost use Rattle.bus_wire.specs.Asks.{AsksBootstrap};
ghost use Rattle.bootstrap_server.specs.Locked.{MaySome};

use bootstrap_core::Replies;
use bus_http::{Service, Side, Unanswered};
use bus_stores::BootFault;
use bus_wire::Ask;
use std::alloc::Global;
use std::sync::{Mutex, Wait};

/// What stands behind a lock, as what replies to the asks of one connection. Each reply holds the lock, and nothing else does.
#[derive(Drop)]
pub(crate) struct Locked<'a, B, R> {
    pub(crate) rt: &'a R,
    pub(crate) boot: &'a Mutex<B>,
}

impl<'a, B: Replies, R: Wait> Service for Locked<'a, B, R> {
    ghost use Rattle.std.specs.Prelude.{true};
    ghost use Rattle.bus_http.specs.declared.route.Side.TheVariants.{Boot};
    ghost use Rattle.bootstrap_server.specs.Locked.{MayLocked, KeepsLocked};

    ghost side = { Boot };

    ghost State = { Unit {0} };

    ghost state = { λ _. tt };

    ghost may = { MayLocked B.may };

    ghost keeps = { KeepsLocked };

    ghost sure = { B.sure };

    fn side(&self) -> Side {
        Side::Boot
    }

    fn reply(&mut self, alloc: Global, ask: &Ask, body: &mut Vec<u8>) -> Result<(), Unanswered> {
        let answered = self.boot.lock(self.rt).answer(alloc, ask, body);
        match answered {
            Ok(_) => Ok(()),
            Err(BootFault::NoMemory) => Err(Unanswered::NoMemory),
            Err(_) => Err(Unanswered::Failed),
        }
    }
}
