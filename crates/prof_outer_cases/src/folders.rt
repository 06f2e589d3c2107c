// What folders answer. Beside the lines of a depot there are `folder NAME`, which makes a folder;
// `drafts COUNT`, which makes the first drafts; `left`, which counts the drafts that are as they
// were made, and the others; and `clear`, which removes all drafts.
use crate::depots::answer;
use crate::faulty::{Faulty, Step};
use prof_outer::{Depot, Folder};
use std::alloc::{AllocError, Global};
use std::rt::Files;
use std::{fs, io};

/// How many drafts there may be.
const DRAFTS: u32 = 100;

fn draft_name(alloc: Global, number: u32) -> Result<String, AllocError> {
    format!(in alloc; "cpuprof-draft-{number}\x7f")
}

fn make_drafts<R: Files>(rt: &R, alloc: Global, count: u32) -> Result<(), io::Error> {
    for number in 0..count {
        fs::write(rt, draft_name(alloc, number)?.as_str(), "stays")?;
    }
    Ok(())
}

fn remove_drafts<R: Files>(rt: &R, alloc: Global) -> Result<(), io::Error> {
    for number in 0..DRAFTS {
        let _ = fs::remove_file(rt, draft_name(alloc, number)?.as_str());
    }
    Ok(())
}

fn add_left<R: Files>(rt: &R, alloc: Global, text: &mut String) -> Result<(), io::Error> {
    let mut made = 0u32;
    let mut others = 0u32;
    for number in 0..DRAFTS {
        match fs::metadata(rt, draft_name(alloc, number)?.as_str()) {
            Ok(found) if found.len() == 5 => made = made.saturating_add(1),
            Ok(_) => others = others.saturating_add(1),
            Err(_) => {}
        }
    }
    let said = format!(in alloc; "drafts {made} others {others}\n")?;
    text.push_str(said.as_str())?;
    Ok(())
}

fn set_up<R: Files>(rt: &R, alloc: Global, line: &str, text: &mut String) -> Result<(), io::Error> {
    if let Some(name) = line.strip_prefix("folder ") {
        fs::create_dir(rt, name)?;
    } else if let Some(word) = line.strip_prefix("drafts ") {
        make_drafts(rt, alloc, word.parse::<u32>().unwrap_or(0))?;
    } else if line == "left" {
        add_left(rt, alloc, text)?;
    } else if line == "clear" {
        remove_drafts(rt, alloc)?;
    }
    Ok(())
}

fn answers<R: Files, D: Depot>(
    rt: &R,
    alloc: Global,
    depot: &mut D,
    lines: &str,
) -> Result<String, io::Error> {
    let mut text = String::new(alloc);
    for line in lines.lines() {
        set_up(rt, alloc, line, &mut text)?;
        answer(alloc, depot, line, &mut text)?;
    }
    Ok(text)
}

pub(crate) fn from_folder<R: Files + Clone + Drop>(
    rt: &R,
    alloc: Global,
    lines: &str,
) -> Result<String, io::Error> {
    let mut folder = Folder::new(rt.clone()?);
    answers(rt, alloc, &mut folder, lines)
}

/// The same of a folder where this step of each put fails.
pub(crate) fn from_faulty_folder<R: Files + Clone + Drop>(
    rt: &R,
    alloc: Global,
    step: Step,
    lines: &str,
) -> Result<String, io::Error> {
    let mut folder = Folder::new(Faulty::new(rt.clone()?, step));
    answers(rt, alloc, &mut folder, lines)
}
