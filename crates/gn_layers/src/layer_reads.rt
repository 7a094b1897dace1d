// Reads of many names of a layer.

ghost use Rattle.std.specs.Prelude.{◌≡◌, true};
ghost use Rattle.gn_environment.specs.Chains.{all_read};
ghost use Rattle.gn_layers.specs.Named.{all_read_but_named};

use crate::layer::Layer;
use crate::name_set::NameSet;
use crate::unread::numbered_name;
use gn_text::Names;

impl Layer {
    /// A read of all names. It takes no memory.
    pub fn read_all(&mut self)
        ensures { self.new ≡ all_read self.old }
    {
        self.variables.retain(|_name, variable| {
            variable.unread = None;
            true
        });
    }

    /// A read of all names but these; `names` are those that the layer's numbers stand for. It takes no memory.
    pub fn read_all_but(&mut self, names: &Names, except: &NameSet<'_>)
        ensures { self.new ≡ all_read_but_named names.now except.now self.old }
    {
        self.variables.retain(|number, variable| {
            if !except.has(numbered_name(names, number)) {
                variable.unread = None;
            }
            true
        });
    }
}
