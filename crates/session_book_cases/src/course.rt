// What the parts of the profiler make of a list, item by item.
ghost use Rattle.std.specs.Prelude.{◌≤◌};
ghost use Rattle.prof_base.specs.declared.interval.TheConstants.{MAX_INTERVAL};

use crate::shown::print_text;
use code_event::{CodeEvent, Finished, Item, MAX_SESSIONS, Options, Seen, Tick};
use code_map::CodeMap;
use cpuprofile::write_finished;
use item_text::ItemList;
use prof_base::{MAX_INTERVAL, Memory, Micros, Sequence, SessionId};
use reference_profile::{file, seen_items};
use session_book::{Book, StartRefused, StopRefused};
use std::alloc::{AllocError, Global};
use std::io;
use symbolizer::paths;

fn out_of_memory(_: Memory) -> AllocError {
    AllocError
}

/// The code map and the book of sessions after some items, and what is seen of the whole list.
#[derive(Drop)]
pub(crate) struct Course {
    alloc: Global,
    base: u32,
    seen: Sequence<Seen>,
    map: CodeMap,
    book: Book,
    ghost low: { 1 ≤ base },
    ghost high: { base ≤ MAX_INTERVAL },
}

impl Course {
    /// Makes the course of a list, before its first item.
    pub(crate) fn new(alloc: Global, list: &ItemList) -> Result<Course, AllocError> {
        let base = list.base.clamp(1, MAX_INTERVAL);
        Ok(Course {
            alloc,
            base,
            seen: seen_items(alloc, list.items.as_slice()).map_err(out_of_memory)?,
            map: CodeMap::new(alloc),
            book: Book::new(alloc, base),
        })
    }

    // Returns whether the plain functions make this text of a session's file.
    fn is_plain(&self, session: SessionId, text: &[u8]) -> Result<bool, AllocError> {
        let plain = file(self.alloc, self.base, session, self.seen.as_slice());
        match plain.map_err(out_of_memory)? {
            Some(plain) => Ok(plain.as_slice() == text),
            None => Ok(false),
        }
    }

    // Writes the file of a profile, whose nodes get the reasons of this moment.
    fn file_of(&self, finished: Finished) -> Result<Vec<u8>, Memory> {
        let mut finished = finished;
        self.map.fill_reasons(&mut finished)?;
        write_finished(self.alloc, &finished)
    }

    fn print_file(&self, rt: &impl Print, finished: Finished) -> Result<(), io::Error> {
        let session = finished.session;
        let text = self.file_of(finished).map_err(out_of_memory)?;
        print!(rt; "file {} ", session.0)?;
        print_text(rt, &text)?;
        let compared = if self.is_plain(session, &text)? {
            "same"
        } else {
            "differs"
        };
        println!(rt; "\n{compared}")
    }

    fn start(
        &mut self,
        rt: &impl Print,
        session: SessionId,
        options: Options,
        time: Micros,
    ) -> Result<(), io::Error> {
        match self.book.start(session, options, time) {
            Ok(()) => Ok(()),
            Err(StartRefused::TooMany) => println!(rt; "too many sessions"),
            Err(StartRefused::Already) => println!(rt; "{} runs already", session.0),
            Err(StartRefused::Memory) => Err(AllocError.into()),
        }
    }

    fn stop(&mut self, rt: &impl Print, session: SessionId, time: Micros) -> Result<(), io::Error> {
        match self.book.stop(session, time) {
            Ok(finished) => self.print_file(rt, finished),
            Err(StopRefused::NoSession) => println!(rt; "{} does not run", session.0),
            Err(StopRefused::Memory) => Err(AllocError.into()),
        }
    }

    // Stops the sessions that run, by rising id.
    fn stop_all(&mut self, rt: &impl Print, time: Micros) -> Result<(), io::Error> {
        for _ in 0..MAX_SESSIONS {
            match self.book.first_running() {
                Some(session) => self.stop(rt, session, time)?,
                None => break,
            }
        }
        Ok(())
    }

    fn event(&mut self, rt: &impl Print, event: &CodeEvent) -> Result<(), io::Error> {
        match event {
            CodeEvent::Start {
                session,
                options,
                time,
            } => self.start(rt, *session, *options, *time),
            CodeEvent::Stop { session, time } => self.stop(rt, *session, *time),
            CodeEvent::Finish { time, files: true } => self.stop_all(rt, *time),
            CodeEvent::Finish { files: false, .. } => Ok(()),
            CodeEvent::Create { .. }
            | CodeEvent::Move { .. }
            | CodeEvent::NoOpt { .. }
            | CodeEvent::Deopt { .. }
            | CodeEvent::Delete { .. } => Ok(self.map.apply(event).map_err(out_of_memory)?),
        }
    }

    fn tick(&mut self, tick: &Tick) -> Result<(), Memory> {
        let paths = paths(self.alloc, &mut self.map, tick)?;
        self.book.tick(tick, &paths)
    }

    /// Takes the next item, and prints the files of the sessions that it ends.
    pub(crate) fn take(&mut self, rt: &impl Print, item: &Item) -> Result<(), io::Error> {
        match item {
            Item::Event(record) => self.event(rt, &record.event),
            Item::Tick(tick) => Ok(self.tick(tick).map_err(out_of_memory)?),
        }
    }
}
