// The calls of ports, as a history keeps them.
use code_event::{Answer, Command};

/// A call of the ports, with what it returned. Only proofs read it.
#[derive(Drop)]
pub enum PortCall {
    Commanded {
        port: u8,
        step: u64,
        given: Option<Command>,
    },
    Answered {
        port: u8,
        answer: Answer,
        place: u32,
        is_taken: bool,
    },
    Asked {
        step: u64,
        result: bool,
    },
    Read {
        step: u64,
        now: u64,
    },
    Told {
        interval: u32,
    },
}
