//! Answers one after another.

use std::alloc::{AllocError, Global};

/// Equal answers one behind another, and how many they are.
#[derive(Drop)]
struct Run {
    answer: String,
    count: u64,
}

/// Answers one after another. Equal ones are written once, with their number: `Working*6, E1 Fault`.
#[derive(Drop)]
pub(crate) struct Tally {
    runs: Vec<Run>,
}

impl Tally {
    pub(crate) fn new(alloc: Global) -> Tally {
        Tally {
            runs: Vec::new(alloc),
        }
    }

    pub(crate) fn clear(&mut self) {
        self.runs.clear();
    }

    /// Adds an answer.
    pub(crate) fn push(&mut self, alloc: Global, answer: &str) -> Result<(), AllocError> {
        if self.extend_last(answer) {
            return Ok(());
        }
        let run = Run {
            answer: String::from_str(alloc, answer)?,
            count: 1,
        };
        self.runs.push(run)?;
        Ok(())
    }

    // Counts the answer as one more of the last run, if it equals that.
    fn extend_last(&mut self, answer: &str) -> bool {
        match self.runs.last_mut() {
            Some(run) => {
                let is_equal = run.answer.as_str() == answer;
                if is_equal {
                    run.count = run.count.saturating_add(1);
                }
                is_equal
            }
            None => false,
        }
    }

    /// All answers, with this between two of them; `none` if there are none.
    pub(crate) fn said(&self, alloc: Global, between: &str) -> Result<String, AllocError> {
        if self.runs.is_empty() {
            return String::from_str(alloc, "none");
        }
        let mut text = String::new(alloc);
        for run in &self.runs {
            if !text.is_empty() {
                text.push_str(between)?;
            }
            text.push_str(run.answer.as_str())?;
            push_count(alloc, &mut text, run.count)?;
        }
        Ok(text)
    }
}

fn push_count(alloc: Global, text: &mut String, count: u64) -> Result<(), AllocError> {
    if count < 2 {
        return Ok(());
    }
    text.push_str(format!(in alloc; "*{count}")?.as_str())
}
