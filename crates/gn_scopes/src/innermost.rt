// What is done to the innermost layer as a whole: reads, and names that are given values.

ghost use Rattle.std.specs.Prelude.{◌≡◌, OnOk, OnErr};
ghost use Rattle.gn_environment.specs.Chains.{read_in, all_read};
ghost use Rattle.gn_environment.specs.Declaring.{declared_in};
ghost use Rattle.gn_environment.specs.Giving.{all_given};
ghost use Rattle.gn_environment.specs.Imports.{with_imported_calls};
ghost use Rattle.gn_environment.specs.Templates.{in_block};
ghost use Rattle.gn_layers.specs.Named.{all_read_but_named};
ghost use Rattle.gn_layers.specs.View.{value_pairs};

use crate::scopes::Scopes;
use gn_definitions::KeptScope;
use gn_layers::{NameKey, NameSet};
use gn_text::Names;
use gn_tree::Position;
use gn_values::Value;
use std::alloc::{AllocError, Global};

impl Scopes {
    /// A read of a name of the innermost layer, if it has it. It takes no memory.
    pub(crate) fn read_here(&mut self, name: &NameKey)
        ensures { self.new ≡ in_block (read_in name.now) self.old }
    {
        let _found = self.inner.mark(name);
    }

    /// Declares a name of the innermost layer, if it has the name and declares names, at the position of the call that gave
    /// it, unless it was declared before. It takes no memory.
    pub(crate) fn declare(&mut self, name: &NameKey, position: Position)
        ensures { self.new ≡ in_block (declared_in name.now position) self.old }
    {
        self.inner.declare(name, position);
    }

    /// A read of all names of the innermost layer. It takes no memory.
    pub(crate) fn read_all_here(&mut self)
        ensures { self.new ≡ in_block all_read self.old }
    {
        self.inner.read_all();
    }

    /// A read of all names of the innermost layer but these; `names` are those that its numbers stand for. It takes no
    /// memory.
    pub(crate) fn read_all_here_but(&mut self, names: &Names, except: &NameSet<'_>)
        ensures { self.new ≡ in_block (all_read_but_named names.now except.now) self.old }
    {
        self.inner.read_all_but(names, except);
    }

    /// Gives these names of the innermost layer their values, in order; they count as read. After want of memory nothing
    /// is changed, and the values are dropped.
    pub(crate) fn give_all(
        &mut self,
        alloc: Global,
        values: Vec<(NameKey, Value)>,
    ) -> Result<(), AllocError>
        ensures ok { OnOk result (self.new ≡ in_block (all_given (value_pairs values.items)) self.old) }
        ensures err { OnErr result (self.new ≡ self.old) }
    {
        self.inner.give_all(alloc, values)
    }

    /// Gives these names of the innermost layer their values, in order, which count as read, and sets the templates and the
    /// defaults of a scope there. After want of memory nothing is changed, and the values are dropped.
    pub(crate) fn merge(
        &mut self,
        alloc: Global,
        values: Vec<(NameKey, Value)>,
        scope: &KeptScope,
    ) -> Result<(), AllocError>
        ensures ok { OnOk result
            (self.new
            ≡ in_block (λ layer. with_imported_calls scope.now (all_given (value_pairs values.items) layer)) self.old) }
        ensures err { OnErr result (self.new ≡ self.old) }
    {
        self.inner.merge(alloc, values, scope)
    }
}
