// Subscribers in groups.
use crate::rows::SMALL;
use crate::views::{stood, view};
use crate::words::{number, push_messages, rows_of, stood_of};
use endpoint_groups::groups::EndpointGroups;
use row_file::TrialFault;
use std::alloc::Global;

// A subscriber by its name, and its group, also after it has left.
#[derive(Drop)]
struct Member {
    name: String,
    group: u64,
    is_in: bool,
}

#[derive(Drop)]
struct Subscribers {
    alloc: Global,
    groups: EndpointGroups<u32>,
    members: Vec<Member>,
}

/// Makes the steps of a row, and writes their outputs.
pub(crate) fn push_groups(alloc: Global, steps: &str, out: &mut String) -> Result<(), TrialFault> {
    let mut subscribers = Subscribers {
        alloc,
        groups: EndpointGroups::new(alloc)?,
        members: Vec::new(alloc),
    };
    for step in steps.lines() {
        subscribers.step(step, out)?;
    }
    Ok(())
}

impl Subscribers {
    fn step(&mut self, step: &str, out: &mut String) -> Result<(), TrialFault> {
        if step == "change" {
            return self.change_nothing();
        }
        let Some((verb, words)) = step.split_once(' ') else {
            return Err(TrialFault::new("no step is written so"));
        };
        let (name, rest) = words.split_once(' ').unwrap_or((words, ""));
        match verb {
            "change" => self.change(words),
            "join" => self.join(name, out),
            "leave" => self.leave(name),
            "catch_up" => self.catch_up(name, rest != "absent", out),
            "say" => self.push_said(name, rest, out),
            "keep" => {
                let group = self.group_of(name)?;
                self.groups.keep(group, number(rest)?);
                Ok(())
            }
            "kept" => self.push_kept(name, out),
            _ => Err(TrialFault::new("no step is written so")),
        }
    }

    // What a change is that no row shows: the Service is created or deleted.
    fn change_nothing(&mut self) -> Result<(), TrialFault> {
        Ok(self.groups.change(&[])?)
    }

    fn change(&mut self, words: &str) -> Result<(), TrialFault> {
        let (address, weight) = stood_of(words)?;
        let before = stood(self.alloc, address, weight)?;
        Ok(self.groups.change(before.as_slice())?)
    }

    fn join(&mut self, name: &str, out: &mut String) -> Result<(), TrialFault> {
        let group = self.groups.join()?;
        write!(out, "{name} joins")?;
        self.push_others(group, out)?;
        self.members.push(Member {
            name: String::from_str(self.alloc, name)?,
            group,
            is_in: true,
        })?;
        Ok(())
    }

    fn leave(&mut self, name: &str) -> Result<(), TrialFault> {
        let group = self.group_of(name)?;
        self.groups.leave(group);
        self.set(name, group, false);
        Ok(())
    }

    fn catch_up(&mut self, name: &str, exists: bool, out: &mut String) -> Result<(), TrialFault> {
        let from = self.group_of(name)?;
        let to = self.groups.catch_up(from, exists)?;
        write!(out, "{name} {}", if to == from { "stays" } else { "moves" })?;
        self.set(name, from, false);
        self.push_others(to, out)?;
        self.set(name, to, true);
        Ok(())
    }

    fn push_said(&self, name: &str, rows: &str, out: &mut String) -> Result<(), TrialFault> {
        let rows = rows_of(self.alloc, rows)?;
        let now = view(self.alloc, rows.as_slice(), true)?;
        let group = self.group_of(name)?;
        let messages = self.groups.messages(group, &now, &SMALL)?;
        push_messages(messages.as_slice(), out)
    }

    fn push_kept(&self, name: &str, out: &mut String) -> Result<(), TrialFault> {
        match self.groups.encoding(self.group_of(name)?) {
            Some(encoding) => writeln!(out, "{name} has {encoding}")?,
            None => writeln!(out, "{name} has none")?,
        }
        Ok(())
    }

    fn group_of(&self, name: &str) -> Result<u64, TrialFault> {
        for member in self.members.iter() {
            if member.name.as_str() == name {
                return Ok(member.group);
            }
        }
        Err(TrialFault::new("no subscriber has this name"))
    }

    fn set(&mut self, name: &str, group: u64, is_in: bool) {
        for member in self.members.iter_mut() {
            if member.name.as_str() == name {
                member.group = group;
                member.is_in = is_in;
            }
        }
    }

    // Writes who is in a group.
    fn push_others(&self, group: u64, out: &mut String) -> Result<(), TrialFault> {
        let mut is_alone = true;
        for member in self.members.iter() {
            if member.is_in && member.group == group {
                out.push_str(if is_alone { " with " } else { " " })?;
                out.push_str(member.name.as_str())?;
                is_alone = false;
            }
        }
        out.push_str(if is_alone { " alone\n" } else { "\n" })?;
        Ok(())
    }
}
