// The end of a block that declares arguments.

ghost use Rattle.std.specs.Prelude.{◌≡◌, [], ◌∷◌, ◌++◌, IfOk, OnOk, IfErr, IfSome, Ok, Err, map};
ghost use Rattle.gn_values.specs.View.{val_of, entry_of};
ghost use Rattle.gn_environment.specs.Declaring.{argument_of, arguments_here, taken, arguments_set, arguments_declared};
ghost use Rattle.gn_env.specs.Arguments.{argument_state};
ghost use Rattle.gn_env.specs.Defaults.{already_set};

use crate::env::Env;
use crate::templates::GiveError;
use gn_paths::Text;
use gn_tree::Position;
use gn_values::{Entry, Value};
use std::alloc::{AllocError, Global};

/// An argument that a block declares.
#[derive(Drop)]
pub struct Argument {
    /// The name.
    pub name: Text,
    /// Where it is declared: at the operator of its first assignment in the block, or at the call there that gave it.
    pub position: Position,
    /// The value that it has in the block, which it takes where no other is given.
    pub default: Value,
}

impl Env {
    /// Ends the innermost scope, that of a block that declares arguments, whose call stands at the position: each of its
    /// names, in their order, takes the value that it is given under the toolchain, or else its default, and is set in the
    /// scope around the block, where it counts as read. It has the arguments then. `AlreadySet` comes exactly where the
    /// scope around the block has one of the names, and has the first of them. After an error the environment is spent, but
    /// its setting stays. The work is n log n in the names.
    #[tactic(auto, unfolding(gn_environment::specs::Declaring::arguments_declared, gn_environment::specs::Environment::left))]
    pub fn declare_arguments(
        &mut self,
        alloc: Global,
        position: Position,
    ) -> Result<Vec<Argument>, GiveError>
        ensures ok { OnOk result (arguments_declared position self.old ≡ Ok self.new) }
        ensures arguments { IfOk result
            (λ arguments. map argument_state arguments.items ≡ arguments_here position self.old) }
        ensures refused { IfErr result
            (λ e. IfSome (already_set e)
            (λ name. arguments_declared position self.old ≡ Err name)) }
        ensures setting { self.new.setting ≡ self.old.setting }
    {
        let arguments = self.arguments_here(alloc, position)?;
        self.leave();
        self.set_arguments(alloc, &arguments)?;
        Ok(arguments)
    }

    // The arguments of the block whose scope is the innermost one.
    #[tactic(auto, unfolding(gn_environment::specs::Declaring::arguments_here, gn_environment::specs::Environment::entries_here))]
    fn arguments_here(&self, alloc: Global, position: Position) -> Result<Vec<Argument>, AllocError>
        ensures { IfOk result
            (λ arguments. map argument_state arguments.items ≡ arguments_here position self.now) }
    {
        let entries = self.scopes.copies_here(alloc)?;
        self.arguments_of(alloc, position, entries.into_vec())
    }

    // The arguments that the innermost scope declares with these names and values.
    fn arguments_of(
        &self,
        alloc: Global,
        position: Position,
        entries: Vec<Entry>,
    ) -> Result<Vec<Argument>, AllocError>
        ensures { IfOk result
            (λ arguments. map argument_state arguments.items
            ≡ map (argument_of position self.now) (map entry_of entries.items)) }
    {
        let mut arguments = Vec::new(alloc);
        for entry in entries {
            arguments.push(self.argument_of(position, entry))?;
        }
        Ok(arguments)
    }

    // The argument that the innermost scope declares with this name and value.
    fn argument_of(&self, position: Position, entry: Entry) -> Argument
        ensures { argument_state result ≡ argument_of position self.now (entry_of entry) }
    {
        let Entry { name, value } = entry;
        let position = match self.declared_here(&name) {
            Some(first) => first,
            None => position,
        };
        Argument {
            name,
            position,
            default: value,
        }
    }

    // Sets arguments in the innermost scope.
    fn set_arguments(&mut self, alloc: Global, arguments: &[Argument]) -> Result<(), GiveError>
        ensures ok { OnOk result
            (arguments_set self.old.setting.context.overrides (map argument_state arguments.now) self.old
            ≡ Ok self.new) }
        ensures refused { IfErr result
            (λ e. IfSome (already_set e)
            (λ name. arguments_set self.old.setting.context.overrides
            (map argument_state arguments.now) self.old ≡ Err name)) }
        ensures setting { self.new.setting ≡ self.old.setting }
    {
        for argument in arguments {
            self.set_argument(alloc, argument)?;
        }
        Ok(())
    }

    // Sets an argument in the innermost scope, unless that has the name.
    #[tactic(auto, unfolding(gn_environment::specs::Environment::given, gn_environment::specs::Environment::restored, gn_environment::specs::Declaring::name_declared))]
    fn set_argument(&mut self, alloc: Global, argument: &Argument) -> Result<(), GiveError>
        ensures ok { OnOk result
            (arguments_set self.old.setting.context.overrides (argument_state argument.now ∷ [])
            self.old ≡ Ok self.new) }
        ensures refused { IfErr result
            (λ e. IfSome (already_set e)
            (λ name. arguments_set self.old.setting.context.overrides
            (argument_state argument.now ∷ []) self.old ≡ Err name)) }
        ensures setting { self.new.setting ≡ self.old.setting }
    {
        if self.is_set_here(&argument.name) {
            return Err(GiveError::AlreadySet(argument.name.copy(alloc)?));
        }
        let value = self.value_taken(alloc, argument)?;
        self.give(alloc, &argument.name, value)?;
        self.declare(&argument.name, argument.position);
        Ok(())
    }

    // The value that an argument takes: what its name is given under the toolchain, else its default.
    fn value_taken(&self, alloc: Global, argument: &Argument) -> Result<Value, AllocError>
        ensures { IfOk result
            (λ value. val_of value
            ≡ taken self.now.setting.context.overrides argument.now.name
            (val_of argument.now.default)) }
    {
        match self.context.overrides.get(argument.name.as_bytes()) {
            Some(value) => value.copy(alloc),
            None => argument.default.copy(alloc),
        }
    }
}
