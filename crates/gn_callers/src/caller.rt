// One caller of a template whose body runs.

ghost use Rattle.std.specs.Prelude.{◌≡◌, option_map};
ghost use Rattle.gn_environment.specs.Chains.{chain_left};

use gn_definitions::Definition;
use gn_paths::Text;
use gn_scopes::NamedScopes;
use std::marker::Model;
use std::mem;
use std::sync::Arc;

/// Who called the template whose body runs: the layers there, the definition whose body runs in them, if it is one, and
/// the file.
#[derive(Drop)]
pub struct Caller {
    pub(crate) scopes: NamedScopes,
    pub(crate) body: Option<Arc<Definition>>,
    pub(crate) file: Text,
}

impl Model for Caller {
    ghost use Rattle.std.specs.Prelude.{option_map};
    ghost use Rattle.gn_environment.specs.Environment.{Caller as CallerState};
    ghost use Rattle.gn_environment.specs.Codes.{caller_code};

    ghost Value = { CallerState };

    ghost coded = { caller_code };

    ghost view = { λ a. record { chain = a.scopes; body = option_map (λ d. d.value) a.body; file = a.file } };
}

impl Caller {
    /// One that calls from these layers, in this body and in this file.
    pub fn new(scopes: NamedScopes, body: Option<Arc<Definition>>, file: Text) -> Caller
        ensures { result ≡ record { chain = scopes; body = option_map (λ d. d.value) body; file = file } }
    {
        Caller { scopes, body, file }
    }

    /// Lets what was open where the caller called, but for the scope of its call's block, take the place of these scopes,
    /// of this body and of this file. It takes no memory.
    pub fn back_in(
        self,
        scopes: &mut NamedScopes,
        body: &mut Option<Arc<Definition>>,
        file: &mut Text,
    )
        ensures scopes { scopes.new ≡ chain_left self.chain }
        ensures body { option_map (λ d. d.value) body.new ≡ self.body }
        ensures file { file.new ≡ self.file }
    {
        let mut caller = self;
        caller.change_places(scopes, body, file);
        drop(caller);
        scopes.leave();
    }

    // What is open where the caller calls and these change places. It takes no memory.
    pub(crate) fn change_places(
        &mut self,
        scopes: &mut NamedScopes,
        body: &mut Option<Arc<Definition>>,
        file: &mut Text,
    )
        ensures caller { self.new ≡ record { chain = scopes.old; body = option_map (λ d. d.value) body.old; file = file.old } }
        ensures scopes { scopes.new ≡ self.old.chain }
        ensures body { option_map (λ d. d.value) body.new ≡ self.old.body }
        ensures file { file.new ≡ self.old.file }
    {
        mem::swap(&mut self.scopes, scopes);
        mem::swap(&mut self.body, body);
        mem::swap(&mut self.file, file);
    }
}
