// What a program is asked for by the words behind its name: its work, or to say what that is.
#![tactic(auto)]

ghost use Rattle.std.specs.Prelude.{◌≡◌};
ghost use Rattle.usage.specs.Tasks.{after_word};

#[cfg(test)]
mod tests;

use anyhow::Context;
use std::env;
use std::rt::Env;

// What a program is asked for.
#[derive(Clone, Copy, PartialEq, Eq, Debug)]
pub enum Task {
    Work,
    Help,
}

impl Task {
    // What is asked for with one more word; `None` if no program takes that word there.
    pub fn after(self, word: &str) -> Option<Task>
        ensures { result ≡ after_word self word.now }
    {
        match self {
            Task::Work if word == "--help" => Some(Task::Help),
            _ => None,
        }
    }
}

// Prints the help if it is asked for, and tells whether it was. Of other words the first is told as an error.
pub fn helped<R: Env + Alloc + Print>(rt: &R, help: &str) -> anyhow::Result<bool> {
    let mut task = Task::Work;
    let words = env::args(rt).context("reading the words behind the program's name")?;
    // the first is the name itself
    for word in words.skip(1) {
        match task.after(word.as_str()) {
            Some(next) => task = next,
            None => anyhow::bail!("`{word}` is not taken here: `--help` says what is"),
        }
    }
    if task == Task::Work {
        return Ok(false);
    }
    rt.print(help)?;
    Ok(true)
}
