ghost use Rattle.std.specs.Prelude.{◌≡◌, ◌+◌, ◌≤◌, ◌++◌, ◌∷◌, [], None, length, IfOk, IfErr, OnOk, All};
ghost use Rattle.bus_types.specs.Causes.{HasCause};
ghost use Rattle.bus_link.specs.Links.{IsUnused};
ghost use Rattle.bus_link.specs.Tcp.{IsNewCount, IsNewStream};

use crate::fault::OpenFault;
use crate::gathering::Gathering;
use crate::link::{Accept, Link};
use crate::returned::Returned;
use bus_io::Streaming;
use bus_types::{Count, Failed};
use std::alloc::Global;
use std::marker::Model;
use std::net::{Ipv4Addr, Net, OpenListener, OpenStream, TcpListener, TcpStream};

/// A door over a bound TCP listener. Its connections gather what is written (`Gathering`); where there is no memory for that, `accept`
/// fails and closes the connection. It tells nothing but how often it failed.
#[derive(Drop)]
pub struct TcpDoor<N: Net> {
    alloc: Global,
    listener: N::Listener,
    faults: Count,
}

impl<N: Net> Model for TcpDoor<N> {
    ghost use Rattle.std.specs.Prelude.{ℕ};

    ghost Value = { ℕ };

    ghost view = { λ d. d.faults };
}

impl<N: Net> TcpDoor<N> {
    /// A door over this listener, which has not failed yet.
    pub fn new(alloc: Global, listener: N::Listener) -> TcpDoor<N>
        ensures { result ≡ 0 }
    {
        TcpDoor {
            alloc,
            listener,
            faults: Count::zero(),
        }
    }
}

impl<N: Net> Accept for TcpDoor<N> {
    type Peer = Streaming<Gathering<N::Stream>>;

    ghost faults = { λ d. d };

    ghost finished = { λ _. None };

    /// Waits for the next connection to the listener's port.
    fn accept(&mut self) -> Result<Streaming<Gathering<N::Stream>>, Failed> {
        let Ok((stream, _)) = self.listener.accept() else {
            self.faults.raise();
            return Err(Failed);
        };
        hasten(&stream);
        let Ok(stream) = Gathering::new(self.alloc, stream) else {
            self.faults.raise();
            return Err(Failed);
        };
        Ok(Streaming::new(stream))
    }

    /// Closes the connection.
    fn finish(&mut self, _peer: Streaming<Gathering<N::Stream>>) {}
}

// Has a stream send at once what is written, so that an answer doesn't wait until the one before it was received. A stream that
// can't is as good, only slower.
fn hasten<T: OpenStream>(stream: &T) {
    let _ = stream.set_nodelay(true);
}

/// A link over the TCP streams of this machine, which listens and connects at 127.0.0.1. It tells nothing but how often it
/// failed.
#[derive(Drop)]
pub struct TcpLink<'a, N: Net> {
    alloc: Global,
    net: &'a N,
    // A listener that was bound before; the next `listen` takes it in the place of a new one.
    bound: Option<N::Listener>,
    faults: Count,
    hung_up: Returned<Streaming<Gathering<N::Stream>>>,
    shut: Returned<TcpDoor<N>>,
}

impl<'a, N: Net> Model for TcpLink<'a, N> {
    ghost use Rattle.std.specs.Prelude.{ℕ, ◌+◌};
    ghost use Rattle.bus_link.specs.Handed.{sum_over};
    ghost use Rattle.bus_link.specs.Tcp.{stream_faults};

    ghost Value = { ℕ };

    ghost view = { λ l. l.faults + sum_over stream_faults l.hung_up + sum_over (λ n. n) l.shut };
}

impl<'a, N: Net> TcpLink<'a, N> {
    /// A link that has not failed yet.
    pub fn new(alloc: Global, net: &'a N) -> TcpLink<'a, N>
        ensures { result ≡ 0 }
    {
        TcpLink {
            alloc,
            net,
            bound: None,
            faults: Count::zero(),
            hung_up: Returned::new(),
            shut: Returned::new(),
        }
    }

    /// A link that has not failed yet, whose next `listen` gives doors of this listener, at whatever port it is bound.
    pub fn over(alloc: Global, net: &'a N, listener: N::Listener) -> TcpLink<'a, N>
        ensures { result ≡ 0 }
    {
        TcpLink {
            alloc,
            net,
            bound: Some(listener),
            faults: Count::zero(),
            hung_up: Returned::new(),
            shut: Returned::new(),
        }
    }

    // Counts a fault.
    fn fail(&mut self) -> Failed
        ensures { self.new ≡ self.old + 1 }
    {
        self.faults.raise();
        Failed
    }

    // A connection over this stream, which sends at once what is written.
    fn connected(&mut self, stream: N::Stream) -> Result<Streaming<Gathering<N::Stream>>, Failed>
        ensures cause { HasCause self.old self.new result }
        ensures fresh { IfOk result IsNewStream }
    {
        match Gathering::nothing(self.alloc, stream) {
            Ok(stream) => Ok(Streaming::new(stream)),
            Err(_) => Err(self.fail()),
        }
    }

    // The listener that was bound before, or a new one.
    fn take_listener(&mut self, port: u16) -> Result<N::Listener, Failed>
        ensures { HasCause self.old self.new result }
    {
        if let Some(listener) = self.bound.take() {
            return Ok(listener);
        }
        match TcpListener::bind(self.net, (Ipv4Addr::LOCALHOST, port)) {
            Ok(listener) => Ok(listener),
            Err(_) => Err(self.fail()),
        }
    }
}

// Another door over the same listener.
fn again<N: Net>(alloc: Global, listener: &N::Listener) -> Result<TcpDoor<N>, Failed>
    ensures { IfOk result (λ door. door ≡ 0) }
{
    let Ok(other) = listener.try_clone() else {
        return Err(Failed);
    };
    Ok(TcpDoor::new(alloc, other))
}

// So many doors over one listener. They fail where the listener can't be shared.
#[tactic(auto, using(crate::proofs::News::more))]
fn doors_over<N: Net>(
    alloc: Global,
    listener: N::Listener,
    doors: u32,
) -> Result<Vec<TcpDoor<N>>, OpenFault>
    ensures count { IfOk result (λ made. length made.items ≡ doors) }
    ensures fresh { IfOk result (λ made. All IsNewCount made.items) }
{
    let mut made = Vec::new(alloc);
    for _ in 0..doors {
        made.push(again(alloc, &listener)?)?;
    }
    Ok(made)
}

impl<'a, N: Net> Link for TcpLink<'a, N> {
    type Peer = Streaming<Gathering<N::Stream>>;

    type Door = TcpDoor<N>;

    ghost faults = { λ l. l };

    ghost told = { λ _. None };

    /// Binds a listener at the port, or takes the one that was bound before, and makes doors over it.
    fn listen(
        &mut self,
        alloc: Global,
        port: u16,
        doors: u32,
    ) -> Result<Vec<TcpDoor<N>>, OpenFault> {
        let listener = self.take_listener(port)?;
        match doors_over(alloc, listener, doors) {
            Ok(made) => Ok(made),
            Err(OpenFault::NoMemory) => Err(OpenFault::NoMemory),
            Err(OpenFault::Failed) => Err(OpenFault::from(self.fail())),
        }
    }

    /// Connects to the port.
    fn connect(&mut self, port: u16) -> Result<Streaming<Gathering<N::Stream>>, Failed> {
        match TcpStream::connect(self.net, (Ipv4Addr::LOCALHOST, port)) {
            Ok(stream) => {
                hasten(&stream);
                self.connected(stream)
            }
            Err(_) => Err(self.fail()),
        }
    }

    /// Closes the connection.
    fn hang_up(&mut self, peer: Streaming<Gathering<N::Stream>>) {
        self.hung_up.push(&peer);
    }

    /// Closes the door.
    fn shut(&mut self, door: TcpDoor<N>) {
        self.shut.push(&door);
    }
}
