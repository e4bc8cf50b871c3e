// Lines, one after the other, on a hub.
ghost use Rattle.std.specs.Prelude.{◌≤◌};

use feed_step::frames::FrameWriter;
use feed_step::reader::Plain;
use feed_step::run::Run;
use mesh_base::limits::Limits;
use mesh_base::list::List;
use mesh_base::steps::Steps;
use mesh_hub::hub::Hub;
use mesh_outside::SurePatterns;
use row_file::TrialFault;
use std::alloc::Global;
use view_types::config::Config;

/// Lines by their names.
#[derive(Drop)]
pub struct Lines {
    text: String,
}

impl Lines {
    pub fn new(alloc: Global) -> Lines {
        Lines {
            text: String::new(alloc),
        }
    }

    /// Adds lines, each as `NAME: LINE`.
    pub fn add(&mut self, lines: &str) -> Result<(), TrialFault> {
        self.text.push_str(lines)?;
        Ok(())
    }

    fn named(&self, word: &str) -> Result<&str, TrialFault> {
        for row in self.text.as_str().split_terminator('\n') {
            if let Some((name, line)) = row.split_once(": ") {
                if name == word {
                    return Ok(line);
                }
            }
        }
        Err(TrialFault::new("no line has this name"))
    }
}

// Splits a line of a table, `NAMES => RESULT`.
fn step_of(step: &str) -> Result<(&str, &str), TrialFault> {
    match step.split_once(" => ") {
        Some(parts) => Ok(parts),
        None => Err(TrialFault::new("a step has no result")),
    }
}

// Whether a line had its expected result: `refused`, or at most `MOST` objects looked up, or
// `LEAST-MOST`.
fn is_within(refused: bool, count: u64, allowed: &str) -> Result<bool, TrialFault> {
    if refused || allowed == "refused" {
        return Ok(refused && count == 0 && allowed == "refused");
    }
    let (least, most) = allowed.split_once('-').unwrap_or(("0", allowed));
    Ok(least.parse::<u64>()? <= count && count <= most.parse::<u64>()?)
}

/// A hub, and what its lines need.
#[derive(Drop)]
pub struct Bed {
    alloc: Global,
    config: Config,
    hub: Hub,
}

impl Bed {
    /// Returns a hub without objects and subscriptions.
    pub fn new(alloc: Global, limits: Limits) -> Result<Bed, TrialFault>
        requires { 1 ≤ limits.frame_addrs }
    {
        Ok(Bed {
            alloc,
            config: Config::usual(alloc)?,
            hub: Hub::new(alloc, Config::usual(alloc)?, limits)?,
        })
    }

    // Returns whether a line is refused, and how many objects it looks up.
    fn take(&mut self, line: &str) -> Result<(bool, u64), TrialFault> {
        let mut reader = Plain {
            config: &self.config,
        };
        let mut writer = FrameWriter::new(self.alloc);
        let mut out = Vec::new(self.alloc);
        let mut patterns = SurePatterns;
        let mut live = List::new(self.alloc);
        let mut steps = Steps::<Hub>::new();
        let mut run = Run {
            reader: &mut reader,
            writer: &mut writer,
            hub: &mut self.hub,
            patterns: &mut patterns,
            live: &mut live,
            steps: &mut steps,
        };
        let refusal = run.step(1, Some(line.as_bytes()), &mut out)?;
        Ok((refusal.is_some(), steps.count()))
    }

    /// Adds Pods with the label that the Server selects.
    pub fn add_pods(&mut self, count: u32) -> Result<(), TrialFault> {
        for number in 0..count {
            let line = format!(in self.alloc;
                r#"{{"type":"ADDED","object":{{"apiVersion":"v1","kind":"Pod","metadata":{{"name":"other-{number}","namespace":"app","labels":{{"app":"web"}}}}}}}}"#
            )?;
            let (refused, _) = self.take(line.as_str())?;
            if refused {
                return Err(TrialFault::new("a Pod was refused"));
            }
        }
        Ok(())
    }

    // Returns the ids that are due, behind `refused` if the line was.
    fn due_text(&self, refused: bool) -> Result<String, TrialFault> {
        let mut text = String::new(self.alloc);
        if refused {
            text.push_str("refused ")?;
        }
        let mut before = "";
        for id in self.hub.due() {
            let number = id.0;
            write!(text, "{before}{number}")?;
            before = " ";
        }
        if before.is_empty() {
            text.push_str("nobody")?;
        }
        Ok(text)
    }

    // Takes the lines of a step, and appends it, and each line with another result by itself.
    fn push_due_step(
        &mut self,
        lines: &Lines,
        step: &str,
        out: &mut String,
    ) -> Result<(), TrialFault> {
        let (words, expected) = step_of(step)?;
        let mut differs = false;
        for word in words.split(' ') {
            let (refused, _) = self.take(lines.named(word)?)?;
            let due = self.due_text(refused)?;
            if due.as_str() != expected {
                differs = true;
                write!(out, "{word} => {due}\n")?;
            }
        }
        if !differs {
            write!(out, "{step}\n")?;
        }
        Ok(())
    }

    /// Takes the lines of the steps, and appends each step with its result.
    pub fn push_due(
        &mut self,
        lines: &Lines,
        steps: &str,
        out: &mut String,
    ) -> Result<(), TrialFault> {
        for step in steps.split_terminator('\n') {
            self.push_due_step(lines, step, out)?;
        }
        Ok(())
    }

    // Takes the lines of a step, and appends it, and each line that is not within what is allowed
    // by itself. The count of each line is appended to `told`.
    fn push_cost_step(
        &mut self,
        lines: &Lines,
        step: &str,
        out: &mut String,
        told: &mut String,
    ) -> Result<(), TrialFault> {
        let (words, allowed) = step_of(step)?;
        let mut differs = false;
        for word in words.split(' ') {
            let (refused, count) = self.take(lines.named(word)?)?;
            write!(told, "    {word}: {count} of {allowed}\n")?;
            if !is_within(refused, count, allowed)? {
                differs = true;
                write!(out, "{word} => {count}, refused {refused}\n")?;
            }
        }
        if !differs {
            write!(out, "{step}\n")?;
        }
        Ok(())
    }

    /// Takes the lines of the steps, and appends each step with what it may look up. The count of
    /// each line is appended to `told`.
    pub fn push_costs(
        &mut self,
        lines: &Lines,
        steps: &str,
        out: &mut String,
        told: &mut String,
    ) -> Result<(), TrialFault> {
        for step in steps.split_terminator('\n') {
            self.push_cost_step(lines, step, out, told)?;
        }
        Ok(())
    }
}
