// The environment of an evaluation.

ghost use types.Logic.{sem};
ghost use Rattle.std.specs.Prelude.{◌≡◌, ◌≢◌, [], ◌++◌, OnOk, OnErr, IfOk, IfErr, IfSome, true, false, map, option_map};
ghost use Rattle.gn_values.specs.Limits.{scope_fits};
ghost use Rattle.gn_values.specs.View.{val_of};
ghost use Rattle.gn_environment.specs.Chains.{shown_or};
ghost use Rattle.gn_environment.specs.Environment.{new_environment, fixed_value, kept_by, value_of, after_read, after_assignment};
ghost use Rattle.gn_environment.specs.Environment.{after_assignment_over, after_element_assignment, after_element_assignment_over, entered, left};
ghost use Rattle.gn_environment.specs.Environment.{entries_here, reported_here, variable_here, restored, given, with_open};
ghost use Rattle.gn_environment.specs.Declaring.{declaring_entered, name_declared, declared_here};
ghost use Rattle.gn_environment.specs.Faults.{fault_in};
ghost use Rattle.gn_layers.specs.Errors.{refusal_of, element_refusal_of};
ghost use Rattle.gn_environment.specs.Lending.{Ends};
ghost use Rattle.gn_layers.specs.View.{variable_state};
ghost use Rattle.gn_env.specs.contracts.env.Env.{the_row};

use gn_callers::Callers;
use gn_definitions::{Definition, Definitions, KeptScope, MadeBy};
use gn_environment::{Context, OpenBlock};
use gn_faults::{Code, Fault, FileKind};
use gn_kept::behind_value;
use gn_layers::{AssignError, ElementAssignError, Variable};
use gn_paths::{Path, Place, Text, Texts};
use gn_scopes::NamedScopes;
use gn_tree::{AssignOp, Position};
use gn_values::{Bindings, Entries, Value, ValueError};
use std::alloc::{AllocError, Global};
use std::marker::Model;
use std::sync::Arc;

/// The environment of an evaluation: the scopes that are open, what stands beneath them, and where the evaluation takes
/// place.
///
/// A name is looked up in the scopes outwards, then in the layers beneath them, in order. An assignment goes to the
/// innermost scope. Looking a name up takes a number of comparisons that is logarithmic in the names of each layer.
#[derive(Drop)]
pub struct Env {
    pub(crate) context: Arc<Context>,
    pub(crate) kind: FileKind,
    pub(crate) file: Text,
    pub(crate) directory: Path,
    pub(crate) inside: OpenBlock,
    pub(crate) scopes: NamedScopes,
    pub(crate) body: Option<Arc<Definition>>,
    pub(crate) callers: Callers,
    pub(crate) beneath: Vec<Arc<KeptScope>>,
    pub(crate) execution: Text,
    pub(crate) made: Definitions,
    pub(crate) definitions: MadeBy,
    pub(crate) depth: usize,
}

impl Model for Env {
    ghost use Rattle.std.specs.Prelude.{map, option_map};
    ghost use Rattle.gn_environment.specs.Environment.{Environment};
    ghost use Rattle.gn_environment.specs.Codes.{environment_code};

    ghost Value = { Environment };

    ghost coded = { environment_code };

    ghost view = { λ a. record {
      setting = record { context = a.context.value; kind = a.kind; file = a.file; directory = a.directory; inside = a.inside };
      chain = a.scopes;
      body = option_map (λ d. d.value) a.body;
      callers = a.callers;
      beneath = map (λ f. f.value) a.beneath.items;
      execution = a.execution;
      made = a.made;
      definitions = a.definitions;
      depth = a.depth;
    } };
}

// What a read finds at a name that stands for this in the scopes that are open.
fn shown_or_behind<'a>(
    found: Option<&'a Variable>,
    body: &'a Option<Arc<Definition>>,
    beneath: &'a [Arc<KeptScope>],
    name: &[u8],
) -> Option<&'a Value>
    ensures { option_map (λ v. val_of v.now) result
        ≡ shown_or (option_map (λ v. variable_state v.now) found.entry)
        (fixed_value name.now
        (kept_by (option_map (λ d. d.value) body.now) ++ map (λ f. f.value) beneath.now)) }
{
    match found {
        Some(variable) => variable.shown(),
        None => behind_value(body, beneath, name),
    }
}

impl Env {
    /// An environment of one scope, in which nothing is set, no block is open that says what may be called in it, and no
    /// template's body runs. `kind` says as what the file is evaluated, `file` is the file that its places name, `directory`
    /// the current directory, `execution` the name of this execution, by which the definitions that it makes are named,
    /// `checked` says whether the scope's end reports a name that nothing reads, and `beneath` is what a read searches behind
    /// the scopes, with the `definitions` of its templates. It takes no memory.
    #[tactic(auto, unfolding(gn_environment::specs::Environment::new_environment))]
    pub fn new(
        alloc: Global,
        context: Arc<Context>,
        kind: FileKind,
        file: Text,
        directory: Path,
        execution: Text,
        checked: bool,
        beneath: Vec<Arc<KeptScope>>,
        definitions: MadeBy,
    ) -> Env
        ensures { result
            ≡ new_environment
            (record { context = context.value; kind = kind; file = file; directory = directory; inside = OpenBlock.Nothing })
            execution checked (map (λ f. f.value) beneath.items) definitions }
    {
        Env {
            context,
            kind,
            file,
            directory,
            inside: OpenBlock::Nothing,
            scopes: NamedScopes::new(alloc, checked),
            body: None,
            callers: Callers::new(alloc),
            beneath,
            execution,
            made: Definitions::new(alloc),
            definitions,
            depth: 0,
        }
    }

    /// An environment of one scope, in which nothing is set and beneath which nothing stands, for what stands in another file: in
    /// the directory and the open block of this one.
    #[tactic(auto, unfolding(gn_environment::specs::Environment::new_environment))]
    pub fn apart(&self, alloc: Global, file: &Text) -> Result<Env, AllocError>
        ensures { IfOk result
            (λ env. env
            ≡ new_environment (record self.now.setting { file = file.now }) self.now.execution false [] []) }
    {
        let context = self.context.clone()?;
        let file = file.copy(alloc)?;
        let directory = self.directory.copy(alloc)?;
        let execution = self.execution.copy(alloc)?;
        Ok(Env {
            context,
            kind: self.kind,
            file,
            directory,
            inside: self.inside,
            scopes: NamedScopes::new(alloc, false),
            body: None,
            callers: Callers::new(alloc),
            beneath: Vec::new(alloc),
            execution,
            made: Definitions::new(alloc),
            definitions: MadeBy::new(alloc),
            depth: 0,
        })
    }

    /// What never changes in the evaluation, whatever its file is.
    pub fn context(&self) -> &Context
        ensures { result.now ≡ self.now.setting.context }
    {
        &self.context
    }

    /// As what the file is evaluated.
    pub fn kind(&self) -> FileKind
        ensures { result ≡ self.now.setting.kind }
    {
        self.kind
    }

    /// The file that places of the evaluation name.
    pub fn file(&self) -> &Text
        ensures { result.now ≡ self.now.setting.file }
    {
        &self.file
    }

    /// Says which file places of the evaluation name from now on; the current directory stays. It takes no memory.
    pub fn set_file(&mut self, file: Text)
        ensures { self.new ≡ record self.old { setting = record self.old.setting { file = file } } }
    {
        self.file = file;
    }

    /// The current directory.
    pub fn directory(&self) -> &Path
        ensures { result.now ≡ self.now.setting.directory }
    {
        &self.directory
    }

    /// The block that is open and says what may be called in it.
    pub fn open_block(&self) -> OpenBlock
        ensures { result ≡ self.now.setting.inside }
    {
        self.inside
    }

    /// Says which block is open: one that begins, or the one around that which ends.
    pub fn set_open_block(&mut self, block: OpenBlock)
        ensures new { self.new ≡ with_open block self.old }
    {
        self.inside = block;
    }

    /// The depth of the evaluation: the sum over the template calls that are open.
    pub fn depth(&self) -> usize
        ensures { result ≡ self.now.depth }
    {
        self.depth
    }

    /// The value of a name, which counts as read from then on. None comes exactly where it has none. It takes no
    /// memory.
    pub fn look(&mut self, name: &Text) -> Option<&Value>
        ensures* read { sem 𝓛 (Ends the_row self.entry
            (λ env. env ≡ after_read name.now self.old)) }
        ensures value { option_map (λ v. val_of v.now) result ≡ value_of name.now self.old }
    {
        let name = name.as_bytes();
        let found = self.scopes.read(name);
        shown_or_behind(found, &self.body, &self.beneath, name)
    }

    /// Counts a name as read from then on. It takes no memory.
    #[tactic(auto, unfolding(gn_environment::specs::Environment::after_read))]
    pub fn mark(&mut self, name: &[u8])
        ensures { self.new ≡ after_read name.now self.old }
    {
        self.scopes.mark(name);
    }

    /// The value of a name, which doesn't count as read by this. None comes exactly where it has none. It takes no memory.
    #[tactic(auto, unfolding(gn_environment::specs::Environment::value_of))]
    pub fn value(&self, name: &[u8]) -> Option<&Value>
        ensures { option_map (λ v. val_of v.now) result ≡ value_of name.now self.now }
    {
        let found = self.scopes.variable(name);
        shown_or_behind(found, &self.body, &self.beneath, name)
    }

    /// `name = value`, `name += value` or `name -= value`, whose operator stands at the position. `Overwrite` comes
    /// exactly where `=` would put a nonempty list or scope over a nonempty one of its kind in the innermost scope,
    /// `Undefined` where `+=` or `-=` find no value, and `Value` where the operator refuses the two values. After a
    /// refusal nothing is changed, and the value is dropped. `+=` on a name of the innermost scope copies nothing of
    /// what it has.
    #[tactic(auto, unfolding(gn_environment::specs::Environment::after_assignment))]
    pub fn assign(
        &mut self,
        alloc: Global,
        name: &Text,
        op: AssignOp,
        value: Value,
        position: Position,
    ) -> Result<(), AssignError>
        ensures ok { OnOk result
            (after_assignment name.now op (val_of value) position self.old ≡ Ok self.new) }
        ensures refused { IfErr result
            (λ e. IfSome (refusal_of e)
            (λ r. after_assignment name.now op (val_of value) position self.old ≡ Err r)) }
        ensures err { OnErr result (self.new ≡ self.old) }
    {
        let behind = behind_value(&self.body, &self.beneath, name.as_bytes());
        self.scopes.assign(alloc, name, op, value, position, behind)
    }

    /// What `assign` does where `old` is what the name has behind the scopes. `Undefined` doesn't come.
    #[tactic(auto, unfolding(gn_environment::specs::Environment::after_assignment_over))]
    pub fn assign_over(
        &mut self,
        alloc: Global,
        old: &Value,
        name: &Text,
        op: AssignOp,
        value: Value,
        position: Position,
    ) -> Result<(), AssignError>
        ensures ok { OnOk result
            (after_assignment_over (val_of old.now) name.now op (val_of value) position self.old
            ≡ Ok self.new) }
        ensures refused { IfErr result
            (λ e. IfSome (refusal_of e)
            (λ r. after_assignment_over (val_of old.now) name.now op (val_of value) position self.old
            ≡ Err r)) }
        ensures err { OnErr result (self.new ≡ self.old) }
    {
        self.scopes
            .assign(alloc, name, op, value, position, Some(old))
    }

    /// `name[at] op= value` or `name.at op= value`, whose operator stands at the position: an assignment of `name`.
    /// `Undefined` comes exactly where the name has no value, `Subscript` where its value has no such element, and
    /// `Operator` where the operator refuses or the value would be above a limit. After a refusal nothing is changed,
    /// and the value is dropped.
    #[tactic(auto, unfolding(gn_environment::specs::Environment::after_element_assignment))]
    pub fn assign_element(
        &mut self,
        alloc: Global,
        name: &Text,
        at: &Value,
        op: AssignOp,
        value: Value,
        position: Position,
    ) -> Result<(), ElementAssignError>
        ensures ok { OnOk result
            (after_element_assignment name.now (val_of at.now) op (val_of value) position self.old
            ≡ Ok self.new) }
        ensures refused { IfErr result
            (λ e. IfSome (element_refusal_of e)
            (λ r. after_element_assignment name.now (val_of at.now) op (val_of value) position self.old
            ≡ Err r)) }
        ensures err { OnErr result (self.new ≡ self.old) }
    {
        let behind = behind_value(&self.body, &self.beneath, name.as_bytes());
        self.scopes
            .assign_element(alloc, name, at, op, value, position, behind)
    }

    /// What `assign_element` does where `old` is what the name has behind the scopes. `Undefined` doesn't come.
    #[tactic(auto, unfolding(gn_environment::specs::Environment::after_element_assignment_over))]
    pub fn assign_element_over(
        &mut self,
        alloc: Global,
        old: &Value,
        name: &Text,
        at: &Value,
        op: AssignOp,
        value: Value,
        position: Position,
    ) -> Result<(), ElementAssignError>
        ensures ok { OnOk result
            (after_element_assignment_over (val_of old.now) name.now (val_of at.now) op (val_of value)
            position self.old ≡ Ok self.new) }
        ensures refused { IfErr result
            (λ e. IfSome (element_refusal_of e)
            (λ r. after_element_assignment_over (val_of old.now) name.now (val_of at.now) op
            (val_of value) position self.old ≡ Err r)) }
        ensures err { OnErr result (self.new ≡ self.old) }
    {
        self.scopes
            .assign_element(alloc, name, at, op, value, position, Some(old))
    }

    /// Opens a scope, in which nothing is set. After want of memory nothing is changed.
    #[tactic(auto, unfolding(gn_environment::specs::Environment::entered))]
    pub fn enter(&mut self, checked: bool) -> Result<(), AllocError>
        ensures ok { OnOk result (self.new ≡ entered checked self.old) }
        ensures err { OnErr result (self.new ≡ self.old) }
    {
        self.scopes.enter(checked)
    }

    /// Opens the scope of a block that declares arguments, in which nothing is set: an assignment in it declares its name,
    /// which no read finds from then on. After want of memory nothing is changed.
    #[tactic(auto, unfolding(gn_environment::specs::Declaring::declaring_entered))]
    pub fn enter_declaring(&mut self) -> Result<(), AllocError>
        ensures ok { OnOk result (self.new ≡ declaring_entered self.old) }
        ensures err { OnErr result (self.new ≡ self.old) }
    {
        self.scopes.enter_declaring()
    }

    /// Declares a name of the innermost scope, if it has the name and declares names, at the position of the call that gave
    /// it, unless it was declared before. It takes no memory.
    #[tactic(auto, unfolding(gn_environment::specs::Declaring::name_declared))]
    pub fn declare(&mut self, name: &Text, position: Position)
        ensures { self.new ≡ name_declared name.now position self.old }
    {
        self.scopes.declare(name, position);
    }

    /// Where a name of the innermost scope was declared. None comes exactly where it isn't declared there. It takes no
    /// memory.
    #[tactic(auto, unfolding(gn_environment::specs::Declaring::declared_here, gn_environment::specs::Environment::variable_here))]
    pub fn declared_here(&self, name: &Text) -> Option<Position>
        ensures { result ≡ declared_here name.now self.now }
    {
        self.scopes.declared_here(name)
    }

    /// Ends the innermost scope, and lets go of what it has. It takes no memory.
    #[tactic(auto, unfolding(gn_environment::specs::Environment::left))]
    pub fn leave(&mut self)
        ensures new { self.new ≡ left self.old }
    {
        self.scopes.leave();
    }

    /// Ends the innermost scope, and answers the names that were set in it with their values, which aren't copied.
    /// `TooLong` comes exactly where they would nest too deep for a scope's value. The scope ends whatever the answer.
    #[tactic(auto, unfolding(gn_environment::specs::Environment::left, gn_environment::specs::Environment::entries_here))]
    pub fn leave_with_entries(&mut self, alloc: Global) -> Result<Entries, ValueError>
        ensures ok { IfOk result (λ entries. entries ≡ entries_here self.old) }
        ensures fits { OnOk result (scope_fits (entries_here self.old) ≡ true) }
        ensures refused { IfErr result
            (λ e. e ≢ ValueError.Memory
            → (e ≡ ValueError.TooLong) × (scope_fits (entries_here self.old) ≡ false)) }
        ensures new { self.new ≡ left self.old }
    {
        let bindings = self.scopes.leave_with_bindings(alloc)?;
        Entries::from_bindings(bindings)
    }

    /// Copies of the names that were set in the innermost scope, with their values.
    #[tactic(auto, unfolding(gn_environment::specs::Environment::entries_here))]
    pub fn names_here(&self, alloc: Global) -> Result<Bindings, AllocError>
        ensures { IfOk result (λ names. names ≡ entries_here self.now) }
    {
        self.scopes.copies_here(alloc)
    }

    /// What the end of the innermost scope reports: the name that nothing read and whose last assignment stands first,
    /// and where that stands. None comes exactly where the scope isn't checked or every name was read. It takes no
    /// memory.
    #[tactic(auto, unfolding(gn_environment::specs::Environment::reported_here))]
    pub fn unread(&self) -> Option<(&[u8], Position)>
        ensures { option_map (λ p. (p.0.now, p.1)) result ≡ reported_here self.now }
    {
        self.scopes.unread()
    }

    /// Takes a name out of the innermost scope, and answers what it stood for there. It takes no memory.
    #[tactic(auto, unfolding(gn_environment::specs::Environment::variable_here, gn_environment::specs::Environment::restored))]
    pub fn put_aside(&mut self, name: &Text) -> Option<Variable>
        ensures value { option_map variable_state result ≡ variable_here name.now self.old }
        ensures new { self.new ≡ restored name.now None self.old }
    {
        self.scopes.take(name)
    }

    /// Lets a name of the innermost scope stand for what it stood for before, or for nothing. After want of memory
    /// nothing is changed, and the variable is dropped.
    #[tactic(auto, unfolding(gn_environment::specs::Environment::restored))]
    pub fn restore(
        &mut self,
        alloc: Global,
        name: &Text,
        variable: Option<Variable>,
    ) -> Result<(), AllocError>
        ensures ok { OnOk result
            (self.new ≡ restored name.now (option_map variable_state variable) self.old) }
        ensures err { OnErr result (self.new ≡ self.old) }
    {
        match variable {
            Some(variable) => self.scopes.put(name, variable),
            None => {
                let _gone = self.scopes.take(name);
                Ok(())
            }
        }
    }

    /// Gives a name a value in the innermost scope without an assignment: it counts as read. After want of memory
    /// nothing is changed, and the value is dropped.
    #[tactic(auto, unfolding(gn_environment::specs::Environment::given))]
    pub fn give(&mut self, alloc: Global, name: &Text, value: Value) -> Result<(), AllocError>
        ensures ok { OnOk result (self.new ≡ given name.now (val_of value) self.old) }
        ensures err { OnErr result (self.new ≡ self.old) }
    {
        self.restore(alloc, name, Some(Variable::given(value)))
    }

    /// The fault with this code and these details at a position of the file that is evaluated.
    pub fn fault(
        &self,
        alloc: Global,
        code: Code,
        position: Position,
        detail: Texts,
    ) -> Result<Fault, AllocError>
        ensures { IfOk result (λ f. f ≡ fault_in self.now.setting position code detail) }
    {
        let place = self.place(alloc, position)?;
        let toolchain = self.context.fault_toolchain.copy(alloc)?;
        Ok(Fault {
            stage: self.context.stage,
            place: Some(place),
            toolchain,
            code,
            detail,
        })
    }

    /// The place of a position of the file that is evaluated.
    pub(crate) fn place(&self, alloc: Global, position: Position) -> Result<Place, AllocError>
        ensures { IfOk result (λ p. p
            ≡ record { file = self.now.setting.file; line = position.line; column = position.column }) }
    {
        let file = self.file.copy(alloc)?;
        Ok(Place {
            file,
            line: position.line,
            column: position.column,
        })
    }
}
