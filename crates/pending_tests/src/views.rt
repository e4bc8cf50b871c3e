ghost use Rattle.std.specs.Prelude.{◌≡◌, Some, IfOk, IfSome};
ghost use Rattle.net_cidr.specs.declared.ip.Ip.TheVariants.{V4};
ghost use Rattle.view_diff.specs.Earlier.{IsByAddress};
ghost use Rattle.view_rules.specs.Endpoints.{pair_of};
ghost use Rattle.view_rules.specs.Fold.{IsOrderly};

use mesh_base::copied::Copied;
use mesh_base::labels::Labels;
use mesh_base::list::List;
use mesh_base::memory::Memory;
use net_cidr::ip::Ip;
use std::alloc::Global;
use view_fold::folding::Fold;
use view_types::endpoint::{EndpointRow, EndpointView};
use view_types::message::Message;
use view_types::view::View;

/// The row of the address of a number, at port 80.
pub fn row(alloc: Global, number: u32, weight: u32) -> EndpointRow
    ensures { pair_of result ≡ (V4 number, 80) }
{
    EndpointRow {
        ip: Ip::V4(number),
        port: 80,
        weight,
        labels: Labels::new(alloc),
        identity: None,
        tunnel: None,
        h2: false,
    }
}

/// An address at which a row of the weight stood, or none.
pub fn stood(
    alloc: Global,
    number: u32,
    weight: Option<u32>,
) -> Result<Vec<(Ip, u16, Option<EndpointRow>)>, Memory>
    ensures { IfOk result (λ before. IsByAddress before.items) }
{
    let mut before = Vec::new(alloc);
    before.push((Ip::V4(number), 80, row_of(alloc, number, weight)))?;
    Ok(before)
}

fn row_of(alloc: Global, number: u32, weight: Option<u32>) -> Option<EndpointRow>
    ensures { IfSome result (λ row. pair_of row ≡ (V4 number, 80)) }
{
    match weight {
        Some(weight) => Some(row(alloc, number, weight)),
        None => None,
    }
}

/// The endpoints of these addresses and weights; without any, whether the Service exists.
pub fn view(alloc: Global, rows: &[(u32, u32)], exists: bool) -> Result<EndpointView, Memory>
    ensures { IfOk result IsOrderly }
{
    if rows.is_empty() {
        return shown(alloc, Message::NoEndpoints(exists));
    }
    shown(alloc, Message::Add(list_of(alloc, rows)?))
}

fn list_of(alloc: Global, rows: &[(u32, u32)]) -> Result<List<EndpointRow>, Memory> {
    let mut list = List::new(alloc);
    for at in rows {
        list.add(row(alloc, at.0, at.1))?;
    }
    Ok(list)
}

/// What a subscriber sees who is sent the message alone.
fn shown(alloc: Global, message: Message) -> Result<EndpointView, Memory>
    ensures { IfOk result IsOrderly }
{
    let mut fold = Fold::new();
    fold.take(alloc, message)?;
    match fold.view() {
        Some(View::Endpoints(view)) => view.copy(alloc),
        _ => Err(Memory),
    }
}
