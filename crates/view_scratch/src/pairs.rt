ghost use Rattle.std.specs.Prelude.{◌≡◌, IfOk};
ghost use Rattle.view_rules.specs.Endpoints.{first_rows};

use mesh_base::list::List;
use mesh_base::memory::Memory;
use row_places::order::keep_first;
use view_types::endpoint::EndpointRow;

/// Sorts rows by address and port, and keeps the first row of each pair.
pub(crate) fn first_rows(rows: List<EndpointRow>) -> Result<List<EndpointRow>, Memory>
    ensures { IfOk result (λ first. first ≡ first_rows rows) }
{
    let mut rows = rows.into_vec();
    keep_first(&mut rows)?;
    Ok(List::from_vec(rows))
}
