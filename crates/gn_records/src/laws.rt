//! Laws of the records of targets, each as a call that does nothing and whose contract is the law.

ghost use Rattle.std.specs.Prelude.{◌≡◌, ℕ, List, ◌++◌};
ghost use Rattle.std.specs.List.{flat_map};
ghost use Rattle.gn_define.specs.declared.fields.Fields.{Fields};
ghost use Rattle.gn_define.specs.Held.{Held};
ghost use Rattle.gn_rows.specs.declared.variable.Variable.{Variable};
ghost use Rattle.gn_items.specs.declared.item.Item.{Item};
ghost use Rattle.gn_writing.specs.declared.records.Dones.{Dones};
ghost use Rattle.gn_writing.specs.Kinds.{target_blocks};
ghost use Rattle.gn_writing.specs.Lines.{made};
ghost use Rattle.gn_records.specs.declared.inherited.Inherited.{Inherited};
ghost use Rattle.gn_records.specs.Alone.{exports_at, objects_at, made_at, outputs_at};
ghost use Rattle.gn_records.specs.Around.{Around};
ghost use Rattle.gn_records.specs.Flags.{texts_at, all_texts};
ghost use Rattle.gn_records.specs.Made.{objects_of, outputs_of};
ghost use Rattle.gn_records.specs.Records.{record_of};

/// The flags of further configurations stand behind those of the target and of the configurations before them, in their order.
#[tactic(auto, using(crate::proofs::Lists::further_texts))]
pub fn further_configurations_stand_behind()
    ensures { (v : Variable) (own : List (Variable × Held)) (configs more : List Fields) → all_texts v own (configs ++ more) ≡ all_texts v own configs ++ flat_map (texts_at v) more }
{}

/// What a target gives to those that depend on it is known by the target and its configurations alone.
#[tactic(auto, using(crate::proofs::NoDependency::exports_alone))]
pub fn exports_need_no_dependency()
    ensures { (c : Around) (i : Item) (configs : List Fields) (h : Inherited) (d : Dones) (hard : List (List ℕ)) → (record_of c i configs h d hard).exports ≡ exports_at c i configs }
{}

/// The objects of a target are known by the target alone.
#[tactic(auto, using(crate::proofs::NoDependency::objects_alone))]
pub fn objects_need_no_dependency()
    ensures { (c : Around) (i : Item) (configs : List Fields) (h : Inherited) (d : Dones) (hard : List (List ℕ)) → objects_of (record_of c i configs h d hard).written ≡ objects_at c i }
{}

/// What the file of a target makes is known by the target alone.
#[tactic(auto, using(crate::proofs::NoDependency::made_alone))]
pub fn what_is_made_needs_no_dependency()
    ensures { (c : Around) (i : Item) (configs : List Fields) (h : Inherited) (d : Dones) (hard : List (List ℕ)) → made (target_blocks (record_of c i configs h d hard).written) ≡ made_at c i }
{}

/// What a target makes besides its objects and its stamp is known by the target alone.
#[tactic(auto, using(crate::proofs::NoDependency::outputs_alone))]
pub fn outputs_need_no_dependency()
    ensures { (c : Around) (i : Item) (configs : List Fields) (h : Inherited) (d : Dones) (hard : List (List ℕ)) → outputs_of i.kind (record_of c i configs h d hard).written ≡ outputs_at c i }
{}
