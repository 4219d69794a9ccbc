// The files, the listener and the output of the machine as a world. Nothing is told of what they hold.

ghost use Rattle.std.specs.Prelude.{◌≡◌, length, IfOk, All};
ghost use Rattle.gw_wire.specs.World.{IsAlone};
ghost use Rattle.gw_tcp.specs.TcpView.{IsUnused, tcp_view, tcp_world_view};

use crate::tcp_wire::{TcpWire, listen};
use gw_wire::{Addr, Listening, Loaded, Printed, World};
use std::alloc::Global;
use std::io::{ErrorKind, Read};
use std::net::{Net, TcpListener, TcpStream};
use std::rt::{Clock, Files};
use std::{fs, io};

/// A route file is at most so many bytes long.
const FILE_MAX: u64 = 4_194_304;

/// The machine.
#[derive(Drop)]
pub struct TcpWorld<R> {
    rt: R,
    alloc: Global,
    file_faults: u64,
    listen_faults: u64,
    print_faults: u64,
}

impl<R> TcpWorld<R> {
    /// The machine that this runtime stands for.
    pub fn new(rt: R, alloc: Global) -> TcpWorld<R>
        ensures { IsUnused (tcp_world_view result) }
    {
        TcpWorld {
            rt,
            alloc,
            file_faults: 0,
            listen_faults: 0,
            print_faults: 0,
        }
    }
}

impl<
    R: Net<Listener = TcpListener, Stream = TcpStream>
        + Files
        + Print
        + Clock
        + Clone
        + Drop
        + Send,
> World for TcpWorld<R> {
    type Wire = TcpWire<R>;

    ghost world = { tcp_world_view };

    fn read_routes(&mut self, name: &str) -> Loaded {
        match read_file(&self.rt, self.alloc, name) {
            Ok(bytes) => Loaded::Bytes(bytes),
            Err(error) => {
                if error.kind() == ErrorKind::OutOfMemory {
                    return Loaded::NoMemory;
                }
                self.file_faults = self.file_faults.saturating_add(1);
                Loaded::Failed
            }
        }
    }

    fn listen(&mut self, addr: &Addr, workers: u32) -> Listening<TcpWire<R>> {
        match make_wires(&self.rt, self.alloc, addr, workers) {
            Ok(wires) => Listening::Wires(wires),
            Err(error) => {
                if error.kind() == ErrorKind::OutOfMemory {
                    return Listening::NoMemory;
                }
                self.listen_faults = self.listen_faults.saturating_add(1);
                Listening::Failed
            }
        }
    }

    fn print(&mut self, bytes: &[u8]) -> Printed {
        match self.rt.write_all(bytes) {
            Ok(()) => Printed::Done,
            Err(_) => {
                self.print_faults = self.print_faults.saturating_add(1);
                Printed::Failed
            }
        }
    }
}

// The bytes of a file, which is an error where it has more than the limit.
fn read_file<R: Files>(rt: &R, alloc: Global, name: &str) -> io::Result<Vec<u8>> {
    let mut bytes = Vec::new(alloc);
    let read = fs::open(rt, name)?
        .take(FILE_MAX + 1)
        .read_to_end(&mut bytes)?;
    if read as u64 > FILE_MAX {
        return Err(io::Error::from(ErrorKind::FileTooLarge));
    }
    Ok(bytes)
}

// A wire for each worker over one listener. No two of them number a link alike.
fn make_wires<R: Net<Listener = TcpListener, Stream = TcpStream> + Clock + Clone + Drop>(
    rt: &R,
    alloc: Global,
    addr: &Addr,
    workers: u32,
) -> io::Result<Vec<TcpWire<R>>>
    ensures count { IfOk result (λ wires. length wires.items ≡ workers) }
    ensures fresh { IfOk result (λ wires. All (λ wire. IsAlone (tcp_view wire)) wires.items) }
{
    let listener = listen(rt, addr)?;
    let mut wires = Vec::with_capacity(alloc, workers as usize)?;
    for worker in 0..workers {
        wires.push(TcpWire::new(rt.clone()?, listener.try_clone()?, worker, workers))?;
    }
    Ok(wires)
}
