// Rows in the order of routers, of which a router looks at its own alone.

ghost use Rattle.std.specs.Prelude.{◌≡◌, ◌≤◌, ◌↔◌, All, IsTrue, filter};
ghost use Rattle.std.specs.List.Sorted.{IsNonDecreasingBy};
ghost use Rattle.aeth_router.specs.Rows.{is_for};

use crate::router_row::RouterRow;
use aeth_base::RouterId;

/// Whether rows come in the order of routers.
pub fn are_by_router(rows: &[RouterRow]) -> bool
    ensures { IsTrue result ↔ IsNonDecreasingBy (λ row. row.router.0) rows.now }
{
    let mut last = 0;
    for row in rows {
        if row.router.0 < last {
            return false;
        }
        last = row.router.0;
    }
    true
}

// Those of rows in the order of routers that are a router's.
pub(crate) fn rows_of(rows: &[RouterRow], router: RouterId) -> &[RouterRow]
    requires { IsNonDecreasingBy (λ row. row.router.0) rows.now }
    ensures { result.now ≡ filter (is_for router) rows.now }
{
    rows_up_to(rows_from(rows, router), router)
}

// Those behind the ones of all routers before it.
fn rows_from(rows: &[RouterRow], router: RouterId) -> &[RouterRow]
    requires { IsNonDecreasingBy (λ row. row.router.0) rows.now }
    ensures own { filter (is_for router) result.now ≡ filter (is_for router) rows.now }
    ensures least { All (λ row. router.0 ≤ row.router.0) result.now }
    ensures order { IsNonDecreasingBy (λ row. row.router.0) result.now }
{
    &rows[rows.partition_point(|row| row.router.0 < router.0)..]
}

// Its own, which are the first ones.
fn rows_up_to(rows: &[RouterRow], router: RouterId) -> &[RouterRow]
    requires order { IsNonDecreasingBy (λ row. row.router.0) rows.now }
    requires least { All (λ row. router.0 ≤ row.router.0) rows.now }
    ensures { result.now ≡ filter (is_for router) rows.now }
{
    &rows[..rows.partition_point(|row| row.router.0 <= router.0)]
}
