// Reads of many names, and names that nothing reads, by the names that stand in the layers.

ghost use Rattle.std.specs.Prelude.{◌≡◌, option_map};
ghost use Rattle.gn_environment.specs.Chains.{read_in, all_read, all_read_but, names_read, chain_all_read};
ghost use Rattle.gn_environment.specs.Templates.{in_block};
ghost use Rattle.gn_environment.specs.Unread.{reported};

use crate::named_scopes::NamedScopes;
use gn_layers::{NameKey, NameSet};
use gn_paths::{Text, Texts};
use gn_tree::Position;

impl NamedScopes {
    /// A read of a name of the innermost layer, if it has it. It takes no memory.
    pub fn read_here(&mut self, name: &Text)
        ensures { self.new ≡ in_block (read_in name.now) self.old }
    {
        if let Some(number) = self.names.number(name.as_bytes()) {
            self.scopes.read_here(&NameKey::new(number));
        }
    }

    /// A read of all names of the innermost layer. It takes no memory.
    pub fn read_all_here(&mut self)
        ensures { self.new ≡ in_block all_read self.old }
    {
        self.scopes.read_all_here();
    }

    /// A read of all names of all layers. It takes no memory.
    pub fn read_all(&mut self)
        ensures { self.new ≡ chain_all_read self.old }
    {
        self.scopes.read_all();
    }

    /// A read of all names of the innermost layer but these. It takes no memory.
    pub fn read_all_here_but(&mut self, except: &NameSet<'_>)
        ensures { self.new ≡ in_block (all_read_but except.now) self.old }
    {
        self.scopes.read_all_here_but(&self.names, except);
    }

    /// A read of these names of the innermost layer, of those that it has, but for the excepted ones. It takes no memory.
    pub fn read_names_here(&mut self, names: &Texts, except: &NameSet<'_>)
        ensures { self.new ≡ in_block (names_read names.now except.now) self.old }
    {
        for name in names.as_slice() {
            if !except.has(name.as_bytes()) {
                self.read_here(name);
            }
        }
    }

    /// What the end of the innermost scope reports: the name that nothing read and whose last assignment stands first, and
    /// where that stands. None comes exactly where the scope isn't checked or every name was read. It takes no memory.
    pub fn unread(&self) -> Option<(&[u8], Position)>
        ensures { option_map (λ p. (p.0.now, p.1)) result ≡ reported self.now.inner }
    {
        self.scopes.innermost().unread_name(&self.names)
    }
}
