// What threads may share, and what they may hand over.

ghost use mir.Syntax.{Sym};
ghost use denote.Ref.{NamedLft};
ghost use denote.Param.Send.{IsSend, IsSync};
ghost use denote.Struct.Tuple.{TupleAt};
ghost use Rattle.gn_definitions.specs.contracts.kept.Definition as DefinitionRow;
ghost use Rattle.gn_definitions.specs.contracts.kept.KeptScope as ScopeRow;
ghost use Rattle.gn_definitions.specs.contracts.import_value.ImportValue as ImportRow;
ghost use Rattle.gn_definitions.specs.contracts.import_value.MadeBy as TableRow;
ghost use Rattle.gn_evaluation_base.specs.contracts.base.Base as BaseRow;
ghost use Rattle.gn_values.specs.contracts.bindings.Bindings as BindingsRow;
ghost use Rattle.gn_define.specs.contracts.fields.Fields as FieldsRow;
ghost use Rattle.gn_items.specs.contracts.outcome.Outcome as OutcomeRow;
ghost use Rattle.gn_answers.specs.contracts.answer.Filed as FiledRow;
ghost use Rattle.gn_answers.specs.contracts.answer.Answer as AnswerRow;
ghost use Rattle.gn_prepared.specs.Captures.{captures};
ghost use Rattle.gn_prepared.specs.contracts.copies.Copies as CopiesRow;
ghost use Rattle.gn_tree.specs.contracts.tree.Block as BlockRow;

use gn_define::Fields;
use gn_definitions::KeptScope;
use gn_tree::Block;
use gn_values::Bindings;

// A type whose values threads may share, by the bound on it.
fn is_shared<T: Sync>(_value: Option<&T>)
    ensures { IsSync T.row }
{}

// A type whose values threads may hand over, by the bound on it.
fn is_sent<T: Send>(_value: Option<&T>)
    ensures { IsSend T.row }
{}

// Threads may hand over and share blocks of statements.
fn blocks_cross()
    ensures send { IsSend BlockRow.the_row }
    ensures sync { IsSync BlockRow.the_row }
{
    is_sent::<Block>(None);
    is_shared::<Block>(None)
}

fn scopes_are_sent()
    ensures { IsSend ScopeRow.the_row }
{
    is_sent::<KeptScope>(None)
}

fn scopes_are_shared()
    ensures { IsSync ScopeRow.the_row }
{
    is_shared::<KeptScope>(None)
}

// Threads may share and hand over definitions of templates.
fn definitions_cross()
    ensures send { IsSend DefinitionRow.the_row }
    ensures sync { IsSync DefinitionRow.the_row }
{
    blocks_cross();
    scopes_are_sent();
    scopes_are_shared()
}

// Threads may share and hand over tables of definitions.
fn tables_cross()
    ensures send { IsSend TableRow.the_row }
    ensures sync { IsSync TableRow.the_row }
{
    definitions_cross()
}

// Threads may share and hand over what a file leaves for those that import it.
fn imports_cross()
    ensures send { IsSend ImportRow.the_row }
    ensures sync { IsSync ImportRow.the_row }
{
    tables_cross();
    scopes_are_sent();
    scopes_are_shared()
}

// Threads may share and hand over tables of values.
fn bindings_cross()
    ensures send { IsSend BindingsRow.the_row }
    ensures sync { IsSync BindingsRow.the_row }
{
    is_sent::<Bindings>(None);
    is_shared::<Bindings>(None)
}

// Threads may share the base of evaluations.
fn bases_are_shared()
    ensures { IsSync BaseRow.the_row }
{
    bindings_cross();
    scopes_are_sent();
    scopes_are_shared();
    tables_cross()
}

// Threads may share and hand over the fields of items.
fn fields_cross()
    ensures send { IsSend FieldsRow.the_row }
    ensures sync { IsSync FieldsRow.the_row }
{
    is_sent::<Fields>(None);
    is_shared::<Fields>(None)
}

// Threads may share and hand over what executions leave.
fn outcomes_cross()
    ensures send { IsSend OutcomeRow.the_row }
    ensures sync { IsSync OutcomeRow.the_row }
{
    fields_cross()
}

// Threads may hand over what is filed, and share answers.
fn answers_cross()
    ensures filed { IsSend FiledRow.the_row }
    ensures answer { IsSync AnswerRow.the_row }
{
    outcomes_cross();
    imports_cross()
}

// Threads may share copies of what is filed.
fn copies_are_shared()
    ensures { IsSync CopiesRow.the_row }
{
    answers_cross()
}

/// Threads may share a closure that captures what build files are worked on with, and hand over answers. It does nothing.
pub(crate) fn work_is_shared()
    ensures sync { (name : Sym) (alloc base copies wanted : NamedLft) → IsSync (TupleAt name (captures alloc base copies wanted)) }
    ensures filed { IsSend FiledRow.the_row }
{
    bases_are_shared();
    copies_are_shared();
    answers_cross()
}
