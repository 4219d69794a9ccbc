// A world in memory.

ghost use Rattle.std.specs.Prelude.{◌≡◌, ◌≤◌, ◌↔◌, length, IsTrue, IsSome, IfSome, IfOk, All};
ghost use Rattle.gw_wire.specs.Memory.{ListenPlays, LoadPlays, PrintPlays, count_of, fresh_world, world_view};
ghost use Rattle.gw_wire.specs.Wire.{IsFresh};
ghost use Rattle.gw_wire.specs.World.{file_of, AreFresh, FoundFile, ListenStep, LoadStep, PrintStep};

use crate::error::NoMemory;
use crate::traits::{Listening, Loaded, Printed, Wire, World};
use crate::values::{Addr, Bytes};
use std::alloc::Global;
use std::marker::Model;

/// A world of files by name, wires that `listen` gives once, and what was printed.
#[derive(Drop)]
pub struct MemWorld<W: Wire> {
    alloc: Global,
    files: Vec<(Bytes, Bytes)>,
    wires: Option<Vec<W>>,
    prints: bool,
    printed: Vec<u8>,
    telling: bool,
    listened: Option<(Addr, u32)>,
    file_faults: u64,
    listen_faults: u64,
    print_faults: u64,
}

impl<W: Wire> Model for MemWorld<W> {
    ghost use Rattle.std.specs.Prelude.{Some, None, if◌then◌else◌};
    ghost use Rattle.gw_wire.specs.Memory.{WorldState, count_of, told_when, listens_at};
    ghost use Rattle.gw_wire.specs.World.{AreFresh};

    ghost Value = { WorldState };

    ghost view = { λ w. record {
      file_faults = w.file_faults;
      listen_faults = w.listen_faults;
      print_faults = w.print_faults;
      printed = told_when w.telling w.printed.items;
      files = w.files.items;
      listened = listens_at w.listened;
      prints = w.prints;
      wires = count_of w.wires;
    } };

    ghost invariant = { λ w. AreFresh W.wire w.wires };
}

impl<W: Wire> MemWorld<W> {
    /// A world of these files, of which the earlier of two equal names counts. `listen` gives the wires where there
    /// are as many as it asks for, and else fails; each print fails unless `prints`.
    pub fn new(
        alloc: Global,
        files: Vec<(Bytes, Bytes)>,
        wires: Option<Vec<W>>,
        prints: bool,
    ) -> Result<MemWorld<W>, NoMemory>
        requires { AreFresh W.wire wires }
        ensures { IfOk result (λ world. world ≡ fresh_world files.items (count_of wires) prints) }
    {
        Ok(MemWorld {
            alloc,
            files,
            wires,
            prints,
            printed: Vec::with_capacity(alloc, 1024)?,
            telling: true,
            listened: None,
            file_faults: 0,
            listen_faults: 0,
            print_faults: 0,
        })
    }

    /// What was printed, where it is told.
    pub fn printed(&self) -> &[u8]
        ensures { IfSome self.now.printed (λ printed. result.now ≡ printed) }
    {
        self.printed.as_slice()
    }
}

impl<W: Wire + Send> World for MemWorld<W> {
    type Wire = W;

    ghost world = { world_view };

    fn read_routes(&mut self, name: &str) -> Loaded
        ensures step { LoadStep (world_view self.old) (world_view self.new) name.now result }
        ensures plays { LoadPlays self.old name.now result }
    {
        match find_file(self.files.as_slice(), name.as_bytes()) {
            Some(bytes) => match bytes.to_vec(self.alloc) {
                Ok(bytes) => Loaded::Bytes(bytes),
                Err(_) => Loaded::NoMemory,
            },
            None => {
                self.file_faults = self.file_faults.saturating_add(1);
                Loaded::Failed
            }
        }
    }

    fn listen(&mut self, addr: &Addr, workers: u32) -> Listening<W>
        ensures step { ListenStep W.wire (world_view self.old) (world_view self.new) addr.now workers result }
        ensures plays { ListenPlays self.old workers result }
    {
        if let Some(wires) = self.wires.take() {
            if wires.len() == workers as usize {
                self.listened = Some((*addr, workers));
                return Listening::Wires(wires);
            }
        }
        self.listen_faults = self.listen_faults.saturating_add(1);
        Listening::Failed
    }

    fn print(&mut self, bytes: &[u8]) -> Printed
        ensures step { PrintStep (world_view self.old) (world_view self.new) bytes.now result }
        ensures plays { PrintPlays self.old result }
    {
        if !self.prints {
            self.print_faults = self.print_faults.saturating_add(1);
            return Printed::Failed;
        }
        if self.telling {
            self.telling = self.printed.extend_from_slice(bytes).is_ok();
        }
        Printed::Done
    }
}

// The bytes of the first file of a name.
fn find_file<'a>(files: &'a [(Bytes, Bytes)], name: &[u8]) -> Option<&'a [u8]>
    ensures { FoundFile (file_of files.now name.now) result }
{
    for file in files.iter() {
        if file.0.as_slice() == name {
            return Some(file.1.as_slice());
        }
    }
    None
}
