ghost use Rattle.std.specs.Prelude.{◌≡◌, Bool, true, false, List, ℕ, [], IfErr, OnOk, OnErr};
ghost use Rattle.bus_wire.specs.declared.ask.Ask.{Ask as AskValue};
ghost use Rattle.bus_http.specs.declared.route.Side.{Side as SideValue};
ghost use Rattle.bus_http.specs.Route.{IsAskOf};

use crate::route::Side;
use bus_wire::Ask;
use std::alloc::Global;

/// How the serving of a connection ended.
#[derive(Clone, Copy, Debug, PartialEq, Eq)]
pub enum ServeEnd {
    /// The input ended between two requests, or a request that asked to close was answered.
    Closed,
    /// A request was refused with this status.
    BadRequest(u16),
    /// The connection failed in a read: its count rose.
    ReadFault,
    /// The connection failed in a write: its count rose.
    WriteFault,
    /// The 1,000,000th answer was written, and its request didn't ask to close.
    TooMany,
    /// Memory ran out.
    NoMemory,
}

/// Why there is no reply.
#[derive(Clone, Copy, Debug, PartialEq, Eq)]
pub enum Unanswered {
    /// What replies has failed.
    Failed,
    /// Memory ran out.
    NoMemory,
}

/// What replies to the asks of a connection.
///
/// Each type names, for contracts alone, the state that a reply is of, and which bytes a reply may be, by the state before it and
/// the one after. A type may be sure: then want of memory is the only reason for no reply.
pub trait Service {
    /// Whose paths it has.
    ghost side: { SideValue };

    /// The type of its state.
    ghost State: { Type 0 };

    /// Its state.
    ghost state: { Self → State };

    /// Which bytes its reply to an ask may be, by the states before and after.
    ghost may: { State → State → AskValue → List ℕ → Type 0 };

    /// What the states before and after are where there was no reply.
    ghost keeps: { State → State → Type 0 };

    /// Whether it is sure.
    ghost sure: { Bool } = { false };

    /// Whose paths it has.
    fn side(&self) -> Side
        ensures { result ≡ side };

    /// Puts the reply to an ask of its side into an empty vector.
    fn reply(&mut self, alloc: Global, ask: &Ask, body: &mut Vec<u8>) -> Result<(), Unanswered>
        requires ask { IsAskOf side ask.now }
        requires empty { body.old.items ≡ [] }
        ensures replied { OnOk result (may (state self.old) (state self.new) ask.now body.new.items) }
        ensures kept { OnErr result (keeps (state self.old) (state self.new)) }
        ensures surely { sure ≡ true → IfErr result (λ fault. fault ≡ Unanswered.NoMemory) };
}
