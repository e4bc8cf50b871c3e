// An index over a store, changed by lines of words.
use mesh_base::limits::Limits;
use mesh_base::memory::Memory;
use mesh_base::steps::Steps;
use object_store::change::Change;
use object_store::store::Store;
use row_file::TrialFault;
use row_table::row_index::RowIndex;
use std::alloc::Global;
use std::cmp::Ordering;
use view_types::config::Config;
use watch_events::event::Event;
use watch_events::line::Line;
use watch_events::read::read_line;

/// How the keys and the rows of an index are written.
pub(crate) trait Writing<K, R> {
    /// The letters of the keys, in the order in which they are shown.
    fn letters(&self) -> &'static str;

    /// The key of a letter.
    fn key(&self, alloc: Global, letter: &str) -> Result<K, TrialFault>;

    /// Adds what is shown of a row.
    fn push_row(&self, all: &mut String, row: &R) -> Result<(), TrialFault>;
}

/// Objects by their names, a store of some of them, and an index that follows it.
#[derive(Drop)]
pub(crate) struct Follower<I> {
    alloc: Global,
    config: Config,
    objects: String,
    store: Store,
    index: I,
    steps: Steps<Store>,
}

impl<I: RowIndex> Follower<I>
where
    I::Row: Drop,
{
    /// Begins with lines of objects, none of which is held.
    pub(crate) fn new(
        alloc: Global,
        objects: &str,
        config: Config,
        index: I,
    ) -> Result<Follower<I>, Memory>
    where
        I: Drop,
    {
        Ok(Follower {
            alloc,
            config,
            objects: String::from_str(alloc, objects)?,
            store: Store::new(alloc, 20),
            index,
            steps: Steps::new(),
        })
    }

    /// Makes the step of each line, and writes a line of what it tells: the letters of the keys
    /// that the index answers, or the row that was peeked at and, behind a `~`, how many objects
    /// were looked up for it; and then each row that is kept and, behind a `/`, how many marks it
    /// reads.
    pub(crate) fn run<W: Writing<I::Key, I::Row>>(
        &mut self,
        writing: &W,
        lines: &str,
        out: &mut String,
    ) -> Result<(), TrialFault> {
        for line in lines.lines() {
            self.push_step(writing, line, out)?;
            self.push_rows(writing, out)?;
            out.push_str("\n")?;
        }
        Ok(())
    }

    // Does what the words say: `enter`, `leave` or `peek` and the letter of a key, `set` or
    // `remove` and the name of an object.
    fn push_step<W: Writing<I::Key, I::Row>>(
        &mut self,
        writing: &W,
        words: &str,
        out: &mut String,
    ) -> Result<(), TrialFault> {
        let (verb, name) = words.split_once(' ').unwrap_or((words, ""));
        match verb {
            "enter" => {
                let key = writing.key(self.alloc, name)?;
                self.index.enter(&self.store, key, &mut self.steps)?;
                Ok(out.push_str("-")?)
            }
            "leave" => {
                self.index.leave(&writing.key(self.alloc, name)?);
                Ok(out.push_str("-")?)
            }
            "peek" => self.push_peeked(writing, name, out),
            "set" => self.push_answer(writing, "ADDED", name, out),
            "remove" => self.push_answer(writing, "DELETED", name, out),
            _ => Err(TrialFault::new("no step is written so")),
        }
    }

    // Adds the row that is peeked at.
    fn push_peeked<W: Writing<I::Key, I::Row>>(
        &mut self,
        writing: &W,
        letter: &str,
        out: &mut String,
    ) -> Result<(), TrialFault> {
        let key = writing.key(self.alloc, letter)?;
        let before = self.steps.count();
        let row = self.index.peek(&self.store, &key, &mut self.steps)?;
        write!(out, "{letter}:")?;
        writing.push_row(out, row.row())?;
        let count = self.steps.count().saturating_sub(before);
        Ok(write!(out, "~{count}")?)
    }

    // Adds the letters of the keys that the index answers.
    fn push_answer<W: Writing<I::Key, I::Row>>(
        &mut self,
        writing: &W,
        verb: &str,
        name: &str,
        out: &mut String,
    ) -> Result<(), TrialFault> {
        let change = self.change(verb, name)?;
        self.index.on_change(&self.store, &change, &mut self.steps)?;
        let keys = self.index.met_keys()?;
        if keys.len() == 0 {
            out.push_str("-")?;
        }
        for letter in writing.letters().split(' ') {
            if has_key(keys.as_slice(), &writing.key(self.alloc, letter)?) {
                out.push_str(letter)?;
            }
        }
        Ok(())
    }

    fn change(&mut self, verb: &str, name: &str) -> Result<Change, TrialFault> {
        let object = object_of(self.objects.as_str(), name)?;
        let line = format!(in self.alloc; r#"{{"type":"{verb}","object":{object}}}"#)?;
        match read_line(self.alloc, line.as_bytes(), &self.config, &Limits::USUAL) {
            Ok(Line::Event(Event::Set(object))) => match self.store.set(object) {
                Ok(change) => Ok(change),
                Err(_) => Err(TrialFault::new("an object was refused")),
            },
            Ok(Line::Event(Event::Delete(key))) => Ok(self.store.remove(&key)?),
            _ => Err(TrialFault::new("a line is no event of one object")),
        }
    }

    fn push_rows<W: Writing<I::Key, I::Row>>(
        &self,
        writing: &W,
        out: &mut String,
    ) -> Result<(), TrialFault> {
        for letter in writing.letters().split(' ') {
            let key = writing.key(self.alloc, letter)?;
            if let Some(row) = self.index.row(&key) {
                write!(out, " {letter}:")?;
                writing.push_row(out, row)?;
                write!(out, "/{}", self.index.marks(&key)?.len())?;
            }
        }
        Ok(())
    }
}

fn object_of<'a>(objects: &'a str, name: &str) -> Result<&'a str, TrialFault> {
    for line in objects.lines() {
        match line.split_once(' ') {
            Some((other, object)) if other == name => return Ok(object),
            _ => {}
        }
    }
    Err(TrialFault::new("no object has this name"))
}

fn has_key<K: Ord>(keys: &[K], key: &K) -> bool {
    keys.iter().any(|other| other.cmp(key) == Ordering::Equal)
}
