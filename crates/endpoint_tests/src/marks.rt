use crate::names::{key, slice};
use mark_graph::moves::MarkMoves;
use mesh_base::key::Kind;
use mesh_base::list::List;
use mesh_base::memory::Memory;
use row_file::TrialFault;
use slice_marks::slices::SliceMarks;
use std::alloc::{AllocError, Global};
use view_types::mark::Mark;

fn pod(alloc: Global, name: &str) -> Result<Mark, Memory> {
    Ok(Mark::Obj(key(alloc, Kind::Pod, name)?))
}

fn pods(alloc: Global, names: &str) -> Result<List<Mark>, Memory> {
    let mut marks = List::new(alloc);
    for name in names.split(' ') {
        marks.add(pod(alloc, name)?)?;
    }
    Ok(marks)
}

fn step(alloc: Global, read: &mut SliceMarks, step: &str) -> Result<MarkMoves<Mark>, Memory> {
    let moved = match step.split_once(' ') {
        Some((name, names)) => read.put(slice(alloc, name)?, pods(alloc, names)?)?,
        None => read.take(&slice(alloc, step)?),
    };
    read.moves(alloc, moved)
}

fn sign(mark: &Mark, moves: &MarkMoves<Mark>) -> &'static str {
    if moves.come.as_slice().contains(mark) {
        return "+";
    }
    if moves.gone.as_slice().contains(mark) {
        return "-";
    }
    ""
}

fn push_names(all: &mut String, read: &SliceMarks, mark: &Mark) -> Result<(), AllocError> {
    for key in read.at(mark) {
        all.push_str(key.name.as_str())?;
    }
    Ok(())
}

/// Makes a step, as `a x y` or `a`, and writes the slices at each of three Pods. A Pod that lost a
/// place in the slice, or that the slice did not name, has a `-` if no slice names it then, and
/// else a `+`.
pub(crate) fn push_pods(
    alloc: Global,
    read: &mut SliceMarks,
    words: &str,
    out: &mut String,
) -> Result<(), TrialFault> {
    let moves = step(alloc, read, words)?;
    for (before, name) in [("x:", "x"), (" y:", "y"), (" z:", "z")] {
        out.push_str(before)?;
        let mark = pod(alloc, name)?;
        push_names(out, read, &mark)?;
        out.push_str(sign(&mark, &moves))?;
    }
    Ok(out.push_str("\n")?)
}
