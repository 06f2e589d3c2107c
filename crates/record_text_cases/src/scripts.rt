// The texts of scripts, read and written again.
use crate::answers::{out_of_memory, refused, written};
use code_event::Command;
use prof_base::{Memory, put_decimal};
use record_text::{ScriptLine, mode_word, put_max, put_number, put_word, read_script};
use std::alloc::Global;
use std::io;

fn put_command(out: &mut Vec<u8>, command: &Command) -> Result<(), Memory> {
    match command {
        Command::Start(options) => {
            put_word(out, b"start")?;
            put_number(out, u64::from(options.interval))?;
            put_word(out, mode_word(options.mode))?;
            put_max(out, options.max_samples)
        }
        Command::Stop(session) => {
            put_word(out, b"stop")?;
            put_number(out, u64::from(session.0))
        }
    }
}

fn text_of(alloc: Global, script: &[ScriptLine]) -> Result<Vec<u8>, Memory> {
    let mut out = Vec::new(alloc);
    for line in script {
        put_decimal(&mut out, line.step)?;
        put_command(&mut out, &line.command)?;
        out.push(b'\n')?;
    }
    Ok(out)
}

pub(crate) fn answer(alloc: Global, text: &[u8]) -> Result<String, io::Error> {
    match read_script(alloc, text) {
        Ok(script) => match text_of(alloc, script.as_slice()) {
            Ok(canonical) => written(alloc, script.len(), canonical.as_slice(), text),
            Err(_) => out_of_memory(alloc),
        },
        Err(refusal) => refused(alloc, refusal),
    }
}
