//! The lines of a report, from the rows of a desk.
//!
//! Each row is looked up once. The patterns for further files are built once, before the first row.
ghost use Rattle.std.specs.Prelude.{◌≡◌, ◌++◌, ◌∷◌, [], IfOk, OnOk};
ghost use Rattle.std.specs.List.{filter_map};
ghost use Rattle.acng_report.specs.Desks.{line_at, lines_of};

use crate::line::Line;
use acng_base::{CachePath, NoMemory};
use acng_class::Classes;
use acng_desk::{Desk, Joint};
use acng_keeper::Keeper;
use acng_reach::held_paths;
use acng_site::Site;
use std::alloc::Global;

/// What is told of each held path, in byte order.
pub fn lines_of<S: Site, K: Keeper, T: Joint>(
    alloc: Global,
    desk: &Desk<S, K, T>,
) -> Result<Vec<Line>, NoMemory>
    ensures { IfOk result (λ lines. lines.items ≡ lines_of desk.now.plain) }
{
    let mut classes = Classes::by_rules(alloc, desk.rules())?;
    let mut lines = Vec::new(alloc);
    for path in held_paths(alloc, desk)? {
        add_line(alloc, desk, &mut classes, path, &mut lines)?;
    }
    Ok(lines)
}

// Adds what is told of a path, where it is held.
fn add_line<S: Site, K: Keeper, T: Joint>(
    alloc: Global,
    desk: &Desk<S, K, T>,
    classes: &mut Classes,
    path: CachePath,
    lines: &mut Vec<Line>,
) -> Result<(), NoMemory>
    requires solid { classes.old.solid ≡ desk.now.plain.rules.pfile_pattern }
    requires volatile { classes.old.volatile ≡ desk.now.plain.rules.vfile_pattern }
    ensures added { OnOk result (lines.new.items ≡ lines.old.items ++ filter_map (line_at desk.now.plain) (path ∷ [])) }
    ensures same { classes.new ≡ classes.old }
{
    let Some(row) = desk.row(&path) else {
        return Ok(());
    };
    let class = classes.class_of(alloc, &path)?;
    lines.push(Line {
        path,
        size: row.size,
        class,
        mark: row.mark,
    })?;
    Ok(())
}
