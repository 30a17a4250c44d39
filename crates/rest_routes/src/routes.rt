ghost use Rattle.std.specs.Prelude.{◌≡◌, IfOk, OnOk};
ghost use Rattle.rest_routes.specs.Routes.{add, route_of, table};

use crate::route::Route;
use gate_io::Want;
use matchit::{InsertError, Router};
use std::alloc::Global;

/// Adds a path, whose parameters stand in braces.
fn add(router: &mut Router<Route>, path: &str, route: Route) -> Result<(), InsertError>
    ensures { OnOk result (router.new ≡ add path.now route router.old) }
{
    router.insert(path, route)
}

fn filled(alloc: Global) -> Result<Router<Route>, InsertError>
    ensures { IfOk result (λ router. router ≡ table) }
{
    let mut router = Router::new(alloc);
    add(&mut router, "/brokers", Route::Brokers)?;
    add(&mut router, "/topics", Route::Topics)?;
    add(&mut router, "/topics/{topic}", Route::Topic)?;
    add(&mut router, "/topics/{topic}/partitions", Route::Partitions)?;
    add(
        &mut router,
        "/topics/{topic}/partitions/{partition}",
        Route::Partition,
    )?;
    add(
        &mut router,
        "/topics/{topic}/partitions/{partition}/offsets",
        Route::EndOffsets,
    )?;
    add(&mut router, "/consumers/{group}", Route::Group)?;
    add(
        &mut router,
        "/consumers/{group}/instances/{instance}",
        Route::Instance,
    )?;
    add(
        &mut router,
        "/consumers/{group}/instances/{instance}/offsets",
        Route::Offsets,
    )?;
    add(
        &mut router,
        "/consumers/{group}/instances/{instance}/subscription",
        Route::Subscription,
    )?;
    add(
        &mut router,
        "/consumers/{group}/instances/{instance}/assignments",
        Route::Assignments,
    )?;
    add(
        &mut router,
        "/consumers/{group}/instances/{instance}/positions",
        Route::Positions,
    )?;
    add(
        &mut router,
        "/consumers/{group}/instances/{instance}/positions/beginning",
        Route::Beginning,
    )?;
    add(
        &mut router,
        "/consumers/{group}/instances/{instance}/positions/end",
        Route::End,
    )?;
    add(
        &mut router,
        "/consumers/{group}/instances/{instance}/records",
        Route::Records,
    )?;
    Ok(router)
}

/// The paths of the gateway, made once and kept.
#[derive(Drop)]
pub struct Routes {
    router: Router<Route>,
    ghost whole: { router ≡ table },
}

impl Routes {
    /// All paths. No two of them stand in each other's way, so what fails is memory alone.
    pub fn new(alloc: Global) -> Result<Routes, Want> {
        match filled(alloc) {
            Ok(router) => Ok(Routes { router }),
            Err(_) => Err(Want),
        }
    }

    /// The path of the gateway that a request's path is.
    pub fn find(&self, path: &str) -> Option<Route>
        ensures { result ≡ route_of path.now }
    {
        match self.router.at(path) {
            Ok(found) => Some(*found.value),
            Err(_) => None,
        }
    }
}
