// Rows at marks, by numbers.
use mark_graph::by_mark::rows_at;
use mark_graph::moves::{MarkMoves, move_at_marks, move_between, put_all, take_all};
use mark_graph::rows_by_mark::RowsByMark;
use mark_graph::sorted_set::SortedSet;
use mesh_base::list::List;
use row_file::TrialFault;
use std::alloc::Global;

fn row_of(word: &str) -> Result<u64, TrialFault> {
    match word.parse() {
        Ok(row) => Ok(row),
        Err(_) => Err(TrialFault::new("a row is no number")),
    }
}

fn marks_of(alloc: Global, words: &str) -> Result<List<u32>, TrialFault> {
    let mut marks = List::new(alloc);
    for word in words.split(' ') {
        match word.parse() {
            Ok(mark) => marks.add(mark)?,
            Err(_) => return Err(TrialFault::new("a mark is no number")),
        }
    }
    Ok(marks)
}

fn set_of(alloc: Global, words: &str) -> Result<SortedSet<u32>, TrialFault> {
    Ok(SortedSet::of_list(marks_of(alloc, words)?))
}

// The words before and after a word.
fn around<'a>(words: &'a str, word: &str) -> Result<(&'a str, &'a str), TrialFault> {
    match words.split_once(word) {
        Some(parts) => Ok(parts),
        None => Err(TrialFault::new("a step lacks a word")),
    }
}

fn put(alloc: Global, by: &mut RowsByMark<u32>, words: &str) -> Result<(), TrialFault> {
    let (row, marks) = around(words, " at ")?;
    let marks = marks_of(alloc, marks)?;
    Ok(put_all(alloc, by, marks.as_slice(), row_of(row)?)?)
}

fn take(alloc: Global, by: &mut RowsByMark<u32>, words: &str) -> Result<(), TrialFault> {
    let (row, marks) = around(words, " from ")?;
    let marks = marks_of(alloc, marks)?;
    take_all(by, marks.as_slice(), row_of(row)?);
    Ok(())
}

fn move_row(alloc: Global, by: &mut RowsByMark<u32>, words: &str) -> Result<(), TrialFault> {
    let (row, marks) = around(words, " from ")?;
    let (old, new) = around(marks, " to ")?;
    let (old, new) = (set_of(alloc, old)?, set_of(alloc, new)?);
    Ok(move_between(alloc, by, &old, &new, row_of(row)?)?)
}

fn move_marks(alloc: Global, by: &mut RowsByMark<u32>, words: &str) -> Result<(), TrialFault> {
    let (marks, row) = around(words, " by ")?;
    let (gone, come) = around(marks, " gain ")?;
    let (gone, come) = (marks_of(alloc, gone)?, marks_of(alloc, come)?);
    let moves = MarkMoves { gone, come };
    Ok(move_at_marks(alloc, by, &moves, row_of(row)?)?)
}

fn push_at(
    alloc: Global,
    by: &RowsByMark<u32>,
    words: &str,
    out: &mut String,
) -> Result<(), TrialFault> {
    let marks = marks_of(alloc, words)?;
    let rows = rows_at(alloc, by, marks.as_slice())?;
    if rows.len() == 0 {
        out.push_str("none")?;
    }
    let mut before = "";
    for row in rows.as_slice() {
        write!(out, "{before}{row}")?;
        before = " ";
    }
    Ok(out.push_str("\n")?)
}

/// Makes steps, and writes the rows at marks.
pub(crate) fn push_rows(alloc: Global, steps: &str, out: &mut String) -> Result<(), TrialFault> {
    let mut by = RowsByMark::new(alloc);
    for step in steps.lines() {
        match step.split_once(' ') {
            Some(("put", words)) => put(alloc, &mut by, words)?,
            Some(("take", words)) => take(alloc, &mut by, words)?,
            Some(("move", words)) => move_row(alloc, &mut by, words)?,
            Some(("lose", words)) => move_marks(alloc, &mut by, words)?,
            Some(("at", words)) => push_at(alloc, &by, words, out)?,
            _ => return Err(TrialFault::new("no step is written so")),
        }
    }
    Ok(())
}
