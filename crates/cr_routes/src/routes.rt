// SPDX-License-Identifier: Apache-2.0 OR MIT
//! From a path to its resource and its parameters.
ghost use Rattle.std.specs.Prelude.{◌≡◌, IsTrue, OnOk, map, option_map};
ghost use Rattle.cr_routes.specs.Rows.{added, fits, is_free, line, the_rows, with_path};
ghost use Rattle.matchit.specs.Route.{parse_route};

use crate::matched::{Matched, taken};
use crate::resource::Resource;
use cr_base::ReportKind;
use matchit::{InsertError, Router};
use std::alloc::{AllocError, Global};

/// As `paths` lists them.
static PATHS: [(&str, Resource); 33] = [
    ("/accepted", Resource::Accepted),
    ("/accounts", Resource::Accounts),
    ("/assign", Resource::Bulk),
    ("/deadlines", Resource::Deadlines),
    ("/members/{u}", Resource::Member),
    ("/members", Resource::Members),
    ("/me", Resource::Me),
    ("/mode", Resource::Mode),
    ("/papers/{p}/bid", Resource::Bid),
    ("/papers/{p}/comments", Resource::Comments),
    ("/papers/{p}/conflicts", Resource::Conflicts),
    ("/papers/{p}/content/{v}", Resource::Version),
    ("/papers/{p}/content", Resource::Content),
    ("/papers/{p}/decision", Resource::Decision),
    ("/papers/{p}/externals/{u}", Resource::External),
    ("/papers/{p}/externals", Resource::Externals),
    ("/papers/{p}/response", Resource::Response),
    ("/papers/{p}/reviewers/{u}", Resource::Reviewer),
    ("/papers/{p}/reviewers", Resource::Reviewers),
    ("/papers/{p}/reviews", Resource::Reviews),
    ("/papers/{p}/review", Resource::Review),
    ("/papers/{p}/tags/{t}", Resource::Tag),
    ("/papers/{p}", Resource::Paper),
    ("/papers", Resource::Papers),
    ("/phase", Resource::Phase),
    ("/plan", Resource::Plan),
    ("/register", Resource::Register),
    (
        "/reports/decisions",
        Resource::Report(ReportKind::Decisions),
    ),
    ("/reports/letter/{p}", Resource::Report(ReportKind::Letter)),
    ("/reports/load", Resource::Report(ReportKind::Load)),
    ("/reports/papers", Resource::Report(ReportKind::Papers)),
    ("/reports/scores", Resource::Report(ReportKind::Scores)),
    ("/search", Resource::Search),
];

/// Adds a path that conflicts with none of the router's.
fn add(router: &mut Router<Resource>, path: &str, resource: Resource) -> Result<(), AllocError>
    requires { IsTrue (is_free (parse_route path.now) router.old) }
    ensures { OnOk result (router.new ≡ with_path (parse_route path.now) resource router.old) }
{
    let Err(error) = router.insert(path, resource) else {
        return Ok(());
    };
    match error {
        InsertError::OutOfMemory => Err(AllocError),
        _ => unreachable!(),
    }
}

/// Adds paths, each of which conflicts with none before it.
fn add_all(router: &mut Router<Resource>, paths: &[(&str, Resource)]) -> Result<(), AllocError>
    requires { IsTrue (fits (map line paths.now) router.old) }
    ensures { OnOk result (router.new ≡ added (map line paths.now) router.old) }
{
    for (path, resource) in paths {
        add(router, path, *resource)?;
    }
    Ok(())
}

/// The server's paths, in a router that is made once and kept.
#[derive(Drop)]
pub struct Routes {
    router: Router<Resource>,
    ghost whole: { router ≡ the_rows },
}

impl Routes {
    ghost use Rattle.cr_routes.specs.Parts.{found_at, seen};

    /// Returns the router over all paths. Fails only for lack of memory.
    pub fn new(alloc: Global) -> Result<Routes, AllocError> {
        let mut router = Router::new(alloc);
        add_all(&mut router, &PATHS)?;
        Ok(Routes { router })
    }

    /// Returns the resource of a path with what its parameters took, or `None` if the server doesn't know the path.
    /// Case counts, nothing is decoded, and a parameter takes one part that isn't empty.
    ///
    /// # Cost
    ///
    /// Reads the path once, and its parameters once more; costs no allocation, since the parts are lent.
    pub fn find<'p>(&self, path: &'p str) -> Option<Matched<'p>>
        ensures { option_map seen result ≡ found_at path.now }
    {
        let Ok(route) = self.router.at(path) else {
            return None;
        };
        let (first, second) = taken(&route.params);
        Some(Matched {
            resource: *route.value,
            first,
            second,
        })
    }
}
