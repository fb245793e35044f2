//! What a request asks for: a file with its class, the report page, or why it gets neither.
ghost use Rattle.std.specs.Prelude.{◌≡◌};
ghost use Rattle.acng_serve.specs.Pages.{asks_run as asks_run_of, visit_by};
ghost use Rattle.acng_serve.specs.Ways.{LeadsTo, LeadsByClass, LeadsByVisit};

use crate::note::Cause;
use acng_base::{CachePath, NoMemory, Texts};
use acng_class::{Class, Classes};
use acng_conf::Conf;
use acng_remap::{Target, read_target};
use acng_request::Request;
use std::alloc::Global;

/// Where a request leads.
pub(crate) enum Way<Q> {
    /// To a file of a class that is passed on.
    File {
        path: CachePath,
        origins: Texts,
        class: Class,
    },
    /// To the report page.
    Page,
    /// To the report page, behind a run of expiration.
    Run,
    /// Nowhere.
    Refusal(Cause<Q>),
}

/// Reads the target of a request, and looks its file's class up.
pub(crate) fn way_of<Q: Drop>(
    alloc: Global,
    conf: &Conf,
    classes: &mut Classes,
    request: &Request,
) -> Way<Q>
    requires solid { classes.old.solid ≡ conf.now.pfile_pattern }
    requires volatile { classes.old.volatile ≡ conf.now.vfile_pattern }
    ensures way { LeadsTo conf.now request.now result }
    ensures same { classes.new ≡ classes.old }
{
    match read_target(
        alloc,
        conf,
        request.method.as_bytes(),
        request.target.as_bytes(),
    ) {
        Ok(Target::File { path, origins }) => file_way(alloc, classes, path, origins),
        Ok(Target::Page(query)) => page_way(asks_run(query.as_bytes()), conf.maint_over_http()),
        Err(fault) => Way::Refusal(Cause::of_target(fault)),
    }
}

// Whether the page's query asks for a run of expiration; any other asks for nothing.
fn asks_run(query: &[u8]) -> bool
    ensures { result ≡ asks_run_of query.now }
{
    query == b"run=expire".as_slice()
}

// The way to the page. A run that is asked for needs the configuration's leave.
fn page_way<Q>(asks: bool, leave: bool) -> Way<Q>
    ensures { LeadsByVisit (visit_by asks leave) result }
{
    match (asks, leave) {
        (false, _) => Way::Page,
        (true, true) => Way::Run,
        (true, false) => Way::Refusal(Cause::Maint),
    }
}

// The way to a file.
fn file_way<Q: Drop>(
    alloc: Global,
    classes: &mut Classes,
    path: CachePath,
    origins: Texts,
) -> Way<Q>
    ensures way { LeadsByClass classes.old.solid classes.old.volatile path origins result }
    ensures same { classes.new ≡ classes.old }
{
    match classes.class_of(alloc, &path) {
        Ok(Class::Forbidden) => Way::Refusal(Cause::Forbidden),
        Ok(class) => Way::File {
            path,
            origins,
            class,
        },
        Err(NoMemory) => Way::Refusal(Cause::NoMemory),
    }
}
