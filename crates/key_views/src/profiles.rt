// The queries for profiles.
ghost use Rattle.view_types.specs.declared.view.View.TheVariants.{Profile as ProfileOf};
ghost use Rattle.mark_rules.specs.declared.keys.RowKey.TheVariants.{Profile as ProfileRow};
ghost use Rattle.key_views.specs.ProfileQueries.{key_in, profile_query, profile_rows, profiles_asked, profiles_same, query_for};

use crate::query_index::QueryIndex;
use mark_rules::keys::ProfileKey;
use mesh_base::copied::Copied;
use mesh_base::memory::Memory;
use profile_index::index::ProfileIndex;
use std::alloc::Global;
use view_types::outbound::ProfileView;
use view_types::query::Query;
use view_types::view::View;

impl QueryIndex for ProfileIndex {
    ghost kept_query = { profile_query };

    ghost query_for = { query_for };

    ghost row_key = { ProfileRow };

    ghost key_in = { key_in };

    ghost rows_under = { profile_rows };

    ghost view_in = { ProfileOf };

    fn keeps(query: &Query) -> bool {
        match query {
            Query::Profile { .. } => true,
            _ => false,
        }
    }

    fn key_of(alloc: Global, query: &Query) -> Result<Option<ProfileKey>, Memory> {
        match query {
            Query::Profile { target, ctx } => Ok(Some(ProfileKey {
                target: target.copy(alloc)?,
                client: ctx.ns.copy(alloc)?,
            })),
            _ => Ok(None),
        }
    }

    fn view_of(alloc: Global, row: &ProfileView) -> Result<View, Memory> {
        Ok(View::Profile(row.copy(alloc)?))
    }

    ghost same = { profiles_same };

    ghost asked = { profiles_asked };
}
