// The texts of schedules, read and written again.
use crate::answers::{out_of_memory, refused, written};
use record_text::{read_schedule, write_schedule};
use std::alloc::Global;
use std::io;

pub(crate) fn answer(alloc: Global, text: &[u8]) -> Result<String, io::Error> {
    match read_schedule(alloc, text) {
        Ok(schedule) => match write_schedule(alloc, &schedule) {
            Ok(canonical) => written(alloc, schedule.entries().len(), canonical.as_slice(), text),
            Err(_) => out_of_memory(alloc),
        },
        Err(refusal) => refused(alloc, refusal),
    }
}
