// The callers of templates whose bodies run, the innermost first.

ghost use Rattle.std.specs.Prelude.{◌≡◌, [], ◌∷◌, not, OnOk, OnErr, option_map};
ghost use Rattle.gn_environment.specs.Invoker.{is_called, callers_behind};
ghost use Rattle.gn_callers.specs.Callers.{innermost};

use crate::caller::Caller;
use gn_definitions::Definition;
use gn_paths::Text;
use gn_scopes::NamedScopes;
use std::alloc::{AllocError, Global};
use std::collections::VecDeque;
use std::marker::Model;
use std::sync::Arc;

/// The callers of the templates whose bodies run. Contracts see the list of them, the innermost first.
#[derive(Drop)]
pub struct Callers {
    pub(crate) items: VecDeque<Caller>,
}

impl Model for Callers {
    ghost use Rattle.std.specs.Prelude.{List};
    ghost use Rattle.std.specs.Coded.{coded_list};
    ghost use Rattle.gn_environment.specs.Environment.{Caller as CallerState};
    ghost use Rattle.gn_environment.specs.Codes.{caller_code};

    ghost Value = { List CallerState };

    ghost coded = { coded_list caller_code };

    ghost view = { λ a. a.items.items };
}

impl Callers {
    /// None. It takes no memory.
    pub fn new(alloc: Global) -> Callers
        ensures { result ≡ [] }
    {
        Callers {
            items: VecDeque::new(alloc),
        }
    }

    /// Whether there is none: no template's body runs.
    pub fn is_empty(&self) -> bool
        ensures { result ≡ not (is_called self.now) }
    {
        self.items.is_empty()
    }

    /// A body begins: what was open, these scopes, this body and this file, is the innermost caller from now on, and what
    /// begins stands in its place. After want of memory nothing is changed, and what begins is dropped.
    pub fn begin(
        &mut self,
        begun: Caller,
        scopes: &mut NamedScopes,
        body: &mut Option<Arc<Definition>>,
        file: &mut Text,
    ) -> Result<(), AllocError>
        ensures callers { OnOk result (self.new
            ≡ record { chain = scopes.old; body = option_map (λ d. d.value) body.old; file = file.old } ∷ self.old) }
        ensures scopes { OnOk result (scopes.new ≡ begun.chain) }
        ensures body { OnOk result (option_map (λ d. d.value) body.new ≡ begun.body) }
        ensures file { OnOk result (file.new ≡ begun.file) }
        ensures err { OnErr result ((self.new ≡ self.old) × (scopes.new ≡ scopes.old)
            × (option_map (λ d. d.value) body.new ≡ option_map (λ d. d.value) body.old) × (file.new ≡ file.old)) }
    {
        if let Err(error) = self.items.reserve(1) {
            drop(begun);
            return Err(error);
        }
        let mut caller = begun;
        caller.change_places(scopes, body, file);
        self.items.push_front_reserved(caller);
        Ok(())
    }

    /// Takes the innermost caller, whose call ends. It takes no memory.
    pub fn end(&mut self) -> Option<Caller>
        ensures caller { result ≡ innermost self.old }
        ensures new { self.new ≡ callers_behind self.old }
    {
        self.items.pop_front()
    }
}
