ghost use Rattle.pending_rows.specs.Laws.{NotingKeeps};

/// States that noting the addresses at which rows have changed keeps the endpoints that were last
/// shown.
pub fn noting_keeps()
    ensures { NotingKeeps }
{}
