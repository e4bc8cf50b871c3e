// Machines that return replies from a list.
use bytes::Bytes;
use mesh_base::list::List;
use mesh_base::sub_id::SubId;
use mesh_hub::machine::Reply;
use mesh_hub::script::ScriptMachine;
use row_file::TrialFault;
use std::alloc::Global;
use view_types::policy::Policy;
use view_types::verdict::{Decider, Verdict};

/// Returns a machine with the replies for three lines, followed by one frame that no hub sends for
/// them.
pub fn frames(alloc: Global) -> Result<ScriptMachine, TrialFault> {
    let mut frames = List::new(alloc);
    frames.add(Bytes::copy_from_slice(alloc, &[0, 0, 0, 0, 4, 26, 2, 8, 1])?)?;
    let mut replies = List::new(alloc);
    for _ in 0..3 {
        replies.add(Reply::Done)?;
    }
    replies.add(Reply::Frames(SubId(1), frames))?;
    Ok(ScriptMachine {
        alloc,
        replies,
        given: 0,
    })
}

/// Returns a machine whose only reply is a verdict by the policy `audit`.
pub fn verdict(alloc: Global) -> Result<ScriptMachine, TrialFault> {
    let mut replies = List::new(alloc);
    replies.add(Reply::Verdict(Verdict::Allowed(Decider::Default(Policy::Audit))))?;
    Ok(ScriptMachine {
        alloc,
        replies,
        given: 0,
    })
}
