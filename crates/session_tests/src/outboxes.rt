ghost use Rattle.std.specs.Prelude.{◌≡◌, ◌∷◌, [], IfOk};

use bytes::Bytes;
use mesh_base::limits::Limits;
use mesh_base::list::List;
use row_file::TrialFault;
use session_core::link::Session;
use std::alloc::Global;
use view_types::config::Config;

fn two_items(alloc: Global) -> Result<List<Bytes>, TrialFault>
    ensures { IfOk result (λ items. items ≡ (97 ∷ 98 ∷ []) ∷ (99 ∷ []) ∷ []) }
{
    let mut items = List::new(alloc);
    items.add(Bytes::from_static(b"ab"))?;
    items.add(Bytes::from_static(b"c"))?;
    Ok(items)
}

fn put_head(session: &Session, out: &mut String) -> Result<(), TrialFault> {
    let head = session.head();
    let text = if head.is_empty() {
        "nothing"
    } else {
        str::from_utf8(head)?
    };
    write!(out, "{text}\n")?;
    Ok(())
}

/// Writes what is left of two items, `ab` and `c`, before each byte that is written.
pub fn outbox(alloc: Global, out: &mut String) -> Result<(), TrialFault> {
    let config = Config::usual(alloc)?;
    let mut session = Session::new(alloc, &config, &Limits::USUAL)?;
    session.put(two_items(alloc)?)?;
    put_head(&session, out)?;
    session.wrote(1);
    put_head(&session, out)?;
    session.wrote(1);
    put_head(&session, out)?;
    session.wrote(1);
    put_head(&session, out)
}
