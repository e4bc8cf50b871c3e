ghost use Rattle.std.specs.Prelude.{◌≡◌, IfOk, IfErr};
ghost use Rattle.std.specs.Option.{option_copied};
ghost use Rattle.mesh_base.specs.Keyed.{IsKeyed};
ghost use Rattle.mesh_base.specs.Places.{IsHit, IsGap};
ghost use Rattle.view_rules.specs.Endpoints.{pair_cmp, pair_of};
ghost use Rattle.row_places.specs.Rows.{row_at};

use crate::keyed::KeyedRow;
use net_cidr::ip::Ip;
use view_types::endpoint::EndpointRow;

/// Returns the position of the row with the key, or where it would be inserted.
pub fn place<T: KeyedRow>(rows: &[T], key: &T::Key) -> Result<usize, usize>
    requires { IsKeyed T.cmp T.key_of (λ row. row) rows.now }
    ensures hit { IfOk result (IsHit (λ row. T.cmp (T.key_of row) key.now) rows.now) }
    ensures gap { IfErr result (IsGap (λ row. T.cmp (T.key_of row) key.now) rows.now) }
{
    rows.binary_search_by(|row| row.compare_to(key))
}

/// Returns the position of the row with the key of this one, or where this one would be inserted.
pub fn place_of<T: KeyedRow>(rows: &[T], one: &T) -> Result<usize, usize>
    requires { IsKeyed T.cmp T.key_of (λ row. row) rows.now }
    ensures hit { IfOk result (IsHit (λ row. T.cmp (T.key_of row) (T.key_of one.now)) rows.now) }
    ensures gap { IfErr result (IsGap (λ row. T.cmp (T.key_of row) (T.key_of one.now)) rows.now) }
{
    rows.binary_search_by(|row| row.compare(one))
}

/// Returns the row of an address and port, if there is one, in logarithmic time.
pub fn row_at<'a>(rows: &'a [EndpointRow], pair: &(Ip, u16)) -> Option<&'a EndpointRow>
    requires { IsKeyed pair_cmp pair_of (λ row. row) rows.now }
    ensures { option_copied result ≡ row_at rows.now pair.now }
{
    match place(rows, pair) {
        Ok(at) => Some(&rows[at]),
        Err(_) => None,
    }
}
