// The ports that files go to.
ghost use Rattle.std.specs.Prelude.{◌≡◌, ℕ, [], List, Option, Some, None, OnOk, OnErr};
ghost use Rattle.code_event.specs.declared.event.PortFile.{PortFile};
ghost use Rattle.pipe_core.specs.Observed.{appended};
ghost use Rattle.processor.specs.declared.ports.PortCall.{PortCall};

use code_event::PortFile;
use prof_base::Memory;
use std::alloc::Global;

/// What was given to a port.
#[derive(Debug, Drop)]
pub struct PortCall {
    pub port: u8,
    pub file: PortFile,
}

/// Takes the files of sessions for the ports that asked for them.
pub trait FilePorts {
    /// What was given, in order, where it can be observed. What was refused leaves no trace.
    ghost given: { Self → Option (List PortCall) };

    /// What the ports belong to. No call changes it.
    ghost home: { Self → List ℕ };

    /// Gives a port the file of a session, or says that it was lost. Out of memory, the port has not
    /// got it.
    fn file(&mut self, alloc: Global, port: u8, file: PortFile) -> Result<(), Memory>
        ensures home { home self.new ≡ home self.old }
        ensures ok { OnOk result (given self.new ≡ appended (given self.old) (record { port = port; file = file })) }
        ensures err { OnErr result (given self.new ≡ given self.old) };
}

/// Ports in memory that refuse nothing for which there is memory.
#[derive(Drop)]
pub struct SurePorts {
    calls: Vec<PortCall>,
}

impl SurePorts {
    /// Makes ports to which nothing was given. It allocates nothing.
    pub fn new(alloc: Global) -> SurePorts
        ensures { ⟦<SurePorts as FilePorts>⟧.given result ≡ Some [] }
    {
        SurePorts {
            calls: Vec::new(alloc),
        }
    }

    /// Returns what was given, in order.
    pub fn calls(&self) -> &[PortCall]
        ensures { ⟦<SurePorts as FilePorts>⟧.given self.now ≡ Some result.now }
    {
        self.calls.as_slice()
    }
}

impl FilePorts for SurePorts {
    ghost given = { λ p. Some p.calls.items };

    ghost home = { λ _. [] };

    fn file(&mut self, _alloc: Global, port: u8, file: PortFile) -> Result<(), Memory> {
        self.calls.push(PortCall { port, file })?;
        Ok(())
    }
}

/// No ports: it takes each file and drops it.
#[derive(Clone, Copy, Debug, PartialEq, Eq)]
pub struct NoPorts;

impl FilePorts for NoPorts {
    ghost given = { λ _. None };

    ghost home = { λ _. [] };

    fn file(&mut self, _alloc: Global, _port: u8, _file: PortFile) -> Result<(), Memory> {
        Ok(())
    }
}
