//! The methods of a program, by their names.

ghost use Rattle.std.specs.Prelude.{◌≡◌, [], map, option_map, OnErr, OnOk};
ghost use Rattle.xk_tree.specs.Tree.{param_value};
ghost use Rattle.xk_names.specs.Scope.{find};
ghost use Rattle.xk_names.specs.Uses.{Signatures};
ghost use Rattle.xk_names.specs.FaultList.{put};

use crate::table::Table;
use std::alloc::{AllocError, Global};
use std::marker::Model;
use xk_tree::Param;

/// The parameters of methods, by the methods' names.
#[derive(Drop)]
pub struct Methods<'a, 't> {
    params: Table<'t, &'a [Param<'t>]>,
}

impl<'a, 't> Model for Methods<'a, 't> {
    ghost Value = { Signatures };

    ghost view = { λ m. map (λ e. (e.0, map param_value e.1.now)) m.params };
}

impl<'a, 't> Methods<'a, 't> {
    /// No methods.
    pub(crate) fn new(alloc: Global) -> Self
        ensures { result ≡ [] }
    {
        Methods {
            params: Table::new(alloc),
        }
    }

    /// The parameters of the first method of the name, or `None` where no method has it.
    pub fn find(&self, name: &'t [u8]) -> Option<&'a [Param<'t>]>
        ensures { option_map (λ ps. map param_value ps.now) result ≡ find self.now name.now }
    {
        self.params.find(name)
    }

    /// Adds a method, unless one of its name is there. Where memory is wanting nothing changes.
    pub(crate) fn put(&mut self, name: &'t [u8], params: &'a [Param<'t>]) -> Result<(), AllocError>
        ensures entry { OnOk result
            (self.new ≡ put self.old name.now (map param_value params.now)) }
        ensures same { OnErr result (self.new ≡ self.old) }
    {
        self.params.put(name, params)?;
        Ok(())
    }
}
