// Giving files to ports.
ghost use Rattle.std.specs.Prelude.{◌≡◌, ◌==◌, false, is_ok, is_err, OnOk, OnErr};
ghost use Rattle.code_event.specs.declared.event.PortFile.{PortFile};
ghost use Rattle.processor.specs.Filing.{given_to, AreToldLost};

use crate::ports::FilePorts;
use crate::running::SessionPort;
use code_event::PortFile;
use prof_base::Memory;
use std::alloc::Global;

/// Gives a port a file; drops it where it is port 0.
pub(crate) fn give<X: FilePorts>(
    alloc: Global,
    port: u8,
    file: PortFile,
    ports: &mut X,
) -> Result<(), Memory>
    ensures home { X.home ports.new ≡ X.home ports.old }
    ensures ok { OnOk result (X.given ports.new ≡ given_to port file (X.given ports.old)) }
    ensures err { OnErr result (X.given ports.new ≡ X.given ports.old) }
{
    if port == 0 {
        return Ok(());
    }
    ports.file(alloc, port, file)
}

/// Tells the ports of these sessions that their files were lost. Out of memory, some are not told.
pub(crate) fn tell_lost<X: FilePorts>(
    alloc: Global,
    running: &[SessionPort],
    ports: &mut X,
) -> Result<(), Memory>
    ensures home { X.home ports.new ≡ X.home ports.old }
    ensures given { AreToldLost running.now (is_err result) (X.given ports.old) (X.given ports.new) }
{
    let mut told = Ok(());
    for session in running {
        let lost = PortFile::Lost {
            session: session.session,
        };
        if give(alloc, session.port, lost, ports).is_err() {
            told = Err(Memory);
        }
    }
    told
}
