//! Names and columns, as `lanes` has them.

ghost use Rattle.std.specs.Prelude.{◌≡◌, map, option_map, None, Some, IfOk};
ghost use Rattle.xk_show_picture.specs.Picture.{columns, names_for};

use std::alloc::{AllocError, Global};
use xk_show_events::{LegalRun, Places};
use xk_show_lanes::{Grid, Window, accounts_kept, grid_for, named_columns};
use xk_show_names::Names;
use xk_unit_origins::UnitOrigins;

/// By which names things are told, if by any, and how wide columns are.
#[derive(Drop)]
pub struct Columns<'t> {
    pub names: Option<Names<'t>>,
    pub grid: Grid,
}

/// Those of a source text's module, whose shared numbers have these names.
fn source_columns<'t>(
    alloc: Global,
    places: &Places<'_>,
    origins: &[UnitOrigins<'_>],
    shared: &'t [&'t [u8]],
    legal: &LegalRun<'_, '_>,
    window: Window,
) -> Result<Columns<'t>, AllocError>
    requires { places.now.origins ≡ origins.now }
    ensures names { IfOk result (λ c. c.names ≡ names_for places.now
        (Some (map (λ x. x.now) shared.now)) window
        legal.now.module.now legal.now.log.now legal.now.core.now.world) }
    ensures grid { IfOk result (λ c. c.grid ≡ columns places.now c.names window
        legal.now.module.now legal.now.log.now legal.now.core.now.world) }
{
    let kept = accounts_kept(alloc, legal, window)?;
    let columns = named_columns(alloc, places, origins, shared, legal, window, kept)?;
    Ok(Columns {
        names: Some(columns.names),
        grid: columns.grid,
    })
}

/// For these steps of a run: with names, where those of the shared numbers are known. Err where memory was refused.
pub fn columns_for<'t>(
    alloc: Global,
    places: &Places<'_>,
    origins: &[UnitOrigins<'_>],
    shared: Option<&'t [&'t [u8]]>,
    legal: &LegalRun<'_, '_>,
    window: Window,
) -> Result<Columns<'t>, AllocError>
    requires { places.now.origins ≡ origins.now }
    ensures names { IfOk result (λ c. c.names ≡ names_for places.now
        (option_map (λ l. map (λ x. x.now) l.now) shared.entry) window
        legal.now.module.now legal.now.log.now legal.now.core.now.world) }
    ensures grid { IfOk result (λ c. c.grid ≡ columns places.now c.names window
        legal.now.module.now legal.now.log.now legal.now.core.now.world) }
{
    match shared {
        Some(known) => source_columns(alloc, places, origins, known, legal, window),
        None => {
            let grid = grid_for(alloc, places, legal, window)?;
            Ok(Columns { names: None, grid })
        }
    }
}
