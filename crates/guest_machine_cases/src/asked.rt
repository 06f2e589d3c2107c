// What a case asks for, in comments of its program.
use std::alloc::{AllocError, Global};

/// The steps at which a case lists the frames, and the steps after which it stops.
#[derive(Drop)]
pub(crate) struct Asked {
    pub(crate) frames: Vec<u64>,
    pub(crate) steps: u64,
}

// The most steps of a case that does not say after how many it stops.
const MOST_STEPS: u64 = 10_000_000;

// Adds the numbers of a list with spaces between.
fn push_numbers(numbers: &mut Vec<u64>, list: &str) -> Result<(), AllocError> {
    for word in list.split(' ') {
        if let Ok(number) = word.parse() {
            numbers.push(number)?;
        }
    }
    Ok(())
}

impl Asked {
    /// Reads what the lines `# frames STEP..` and `# steps N` of a case ask for.
    pub(crate) fn of(alloc: Global, case: &str) -> Result<Asked, AllocError> {
        let mut asked = Asked {
            frames: Vec::new(alloc),
            steps: MOST_STEPS,
        };
        for line in case.split('\n') {
            if let Some(list) = line.strip_prefix("# frames ") {
                push_numbers(&mut asked.frames, list)?;
            } else if let Some(number) = line.strip_prefix("# steps ") {
                asked.steps = number.parse().unwrap_or(MOST_STEPS);
            }
        }
        Ok(asked)
    }
}
