// A graph in memory, and the records of those of its targets that were resolved.

ghost use Rattle.std.specs.Prelude.{◌≡◌, IfOk, OnOk, IfSome, is_some};
ghost use Rattle.std.specs.List.{list_all};
ghost use Rattle.std.specs.Prelude.{option_map};
ghost use Rattle.indexmap.specs.IndexMap.{keys};
ghost use Rattle.gn_labels.specs.declared.label.Label.{Label as Named};
ghost use Rattle.gn_chains_tests.specs.declared.tree.Item.{Item as Thing};
ghost use Rattle.gn_dependencies.specs.Shape.{all_deps};
ghost use Rattle.gn_dependencies.specs.Configurations.{AreRecorded, IsApplied};
ghost use Rattle.gn_dependencies.specs.Inherited.{IsInherited};
ghost use Rattle.gn_chains_tests.specs.Trees.{item_in, record_in, list_at, shape_in, records_in, visibility_in, testonly_in, forbidden_in, places_in, HoldsRecords, IsRight};
ghost use Rattle.gn_chains_tests.specs.Found.{listed};

use gn_chains::{Graph, Node, applied, inherited, pushed, pushed_public};
use gn_graph_faults::Places;
use gn_labels::{Label, Pattern};
use gn_paths::{Place, Text};
use gn_rows::{ItemKind, Variable};
use gn_rules::Marks;
use indexmap::IndexMap;
use std::alloc::{AllocError, Global};

/// An item of a graph.
#[derive(Drop)]
pub struct Item {
    /// Its kind.
    pub kind: ItemKind,
    /// Whether it is for tests alone.
    pub testonly: bool,
    /// Its patterns of `visibility`, where it is set.
    pub visibility: Option<Vec<Pattern>>,
    /// Its patterns of `assert_no_deps`.
    pub assert_no_deps: Vec<Pattern>,
    /// Its pool, if it has one.
    pub pool: Vec<Label>,
    /// Its public dependencies.
    pub public_deps: Vec<Label>,
    /// Its private dependencies.
    pub deps: Vec<Label>,
    /// Its dependencies of data.
    pub data_deps: Vec<Label>,
    /// Its `configs`.
    pub configs: Vec<Label>,
    /// Its all-dependent configurations.
    pub all_dependent_configs: Vec<Label>,
    /// Its public configurations.
    pub public_configs: Vec<Label>,
    /// The place of the call that defines it.
    pub place: Place,
}

impl Item {
    /// An item of a kind that has nothing. It takes no memory.
    pub fn new(alloc: Global, kind: ItemKind) -> Item
        ensures { result.kind ≡ kind }
    {
        Item {
            kind,
            testonly: false,
            visibility: None,
            assert_no_deps: Vec::new(alloc),
            pool: Vec::new(alloc),
            public_deps: Vec::new(alloc),
            deps: Vec::new(alloc),
            data_deps: Vec::new(alloc),
            configs: Vec::new(alloc),
            all_dependent_configs: Vec::new(alloc),
            public_configs: Vec::new(alloc),
            place: Place {
                file: Text::new(alloc),
                line: 1,
                column: 1,
            },
        }
    }

    // The labels at a variable.
    fn list(&self, variable: Variable) -> &[Label]
        ensures { result.now ≡ list_at self.now variable }
    {
        match variable {
            Variable::PublicDeps => self.public_deps.as_slice(),
            Variable::Deps => self.deps.as_slice(),
            Variable::DataDeps => self.data_deps.as_slice(),
            Variable::Configs => self.configs.as_slice(),
            Variable::AllDependentConfigs => self.all_dependent_configs.as_slice(),
            Variable::PublicConfigs => self.public_configs.as_slice(),
            Variable::Pool => self.pool.as_slice(),
            _ => &[],
        }
    }
}

/// What a target hands on.
#[derive(Drop)]
pub struct Record {
    /// To all that depend on it.
    pub pushed: Vec<Label>,
    /// To those that have it as a dependency.
    pub pushed_public: Vec<Label>,
}

/// A graph in memory, and the records of those of its targets that were resolved.
#[derive(Drop)]
pub struct Tree {
    /// The default toolchain, by the text of its label.
    pub default: Text,
    /// The items by their labels.
    pub items: IndexMap<Label, Item>,
    /// The records by the labels of their targets.
    pub records: IndexMap<Label, Record>,
}

impl Tree {
    /// A graph of these items, none of which is resolved, whose default toolchain has this label. It takes no memory.
    pub fn new(alloc: Global, default: Text, items: IndexMap<Label, Item>) -> Tree
        ensures { HoldsRecords result }
    {
        Tree {
            default,
            items,
            records: IndexMap::new(alloc),
        }
    }

    // The item of a label.
    fn item(&self, label: &Label) -> Option<&Item>
        ensures { option_map (λ item. item.now) result ≡ item_in self.now label.now }
    {
        self.items.get(label)
    }

    // The record of a label.
    fn record(&self, label: &Label) -> Option<&Record>
        ensures { option_map (λ r. r.now) result ≡ record_in self.now label.now }
    {
        self.records.get(label)
    }

    // Whether a label has a record.
    fn has_record(&self, label: &Label) -> bool
        ensures { result ≡ is_some (record_in self.now label.now) }
    {
        self.records.contains_key(label)
    }

    // Whether each of the labels has a record.
    fn has_records(&self, labels: &[Label]) -> bool
        ensures { result ≡ list_all (λ label. is_some (record_in self.now label)) labels.now }
    {
        labels.iter().all(|label| self.has_record(label))
    }

    // Whether each dependency of a target has a record.
    #[tactic(auto, using(crate::proofs::Records::all_of_three))]
    fn is_ready(&self, target: &Label) -> bool
        ensures { result ≡ list_all (λ label. is_some (record_in self.now label)) (all_deps (shape_in self.now) target.now) }
    {
        self.has_records(self.labels(target, Variable::PublicDeps))
            && self.has_records(self.labels(target, Variable::Deps))
            && self.has_records(self.labels(target, Variable::DataDeps))
    }

    // The record of a target, which follows from those of its dependencies.
    fn made(&self, alloc: Global, target: &Label) -> Result<Record, AllocError>
        requires { AreRecorded (shape_in self.now) (records_in self.now) target.now }
        ensures { IfOk result (IsRight (shape_in self.now) target.now) }
    {
        Ok(Record {
            pushed: pushed(alloc, target, self)?,
            pushed_public: pushed_public(alloc, target, self)?,
        })
    }

    // Puts the record of a target with the others.
    fn put(&mut self, target: Label, kept: Record) -> Result<(), AllocError>
        requires right { IsRight (shape_in self.old) target kept }
        requires holds { HoldsRecords self.old }
        ensures { OnOk result (HoldsRecords self.new) }
    {
        self.records.insert(target, kept)?;
        Ok(())
    }

    /// Resolves a target, where its dependencies are resolved; says whether they are.
    pub fn resolve(&mut self, alloc: Global, target: &Label) -> Result<bool, AllocError>
        requires { HoldsRecords self.old }
        ensures { OnOk result (HoldsRecords self.new) }
    {
        if self.is_ready(target) {
            let made = self.made(alloc, target)?;
            self.put(target.copy(alloc)?, made)?;
            Ok(true)
        } else {
            Ok(false)
        }
    }

    /// Resolves targets, each of which stands behind its dependencies; says whether all of them do.
    pub fn resolve_all(&mut self, alloc: Global, targets: &[Label]) -> Result<bool, AllocError>
        requires { HoldsRecords self.old }
        ensures { OnOk result (HoldsRecords self.new) }
    {
        let mut are_resolved = true;
        for target in targets {
            are_resolved &= self.resolve(alloc, target)?;
        }
        Ok(are_resolved)
    }

    /// The configurations that apply to a target; None where a dependency isn't resolved.
    pub fn applied(&self, alloc: Global, target: &Label) -> Result<Option<Vec<Label>>, AllocError>
        requires { HoldsRecords self.now }
        ensures { IfOk result (λ found. IfSome found (λ labels. IsApplied (shape_in self.now) target.now labels.items)) }
    {
        if self.is_ready(target) {
            Ok(Some(applied(alloc, target, self)?))
        } else {
            Ok(None)
        }
    }

    /// The libraries that a target inherits; None where a dependency isn't resolved.
    pub fn inherited(&self, alloc: Global, target: &Label) -> Result<Option<Vec<Label>>, AllocError>
        requires { HoldsRecords self.now }
        ensures { IfOk result (λ found. IfSome found (λ labels. IsInherited self.now.default (shape_in self.now) target.now labels.items)) }
    {
        if self.is_ready(target) {
            Ok(Some(inherited(alloc, target, self)?))
        } else {
            Ok(None)
        }
    }
}

impl Graph for Tree {
    ghost shape = { shape_in };

    ghost records = { records_in };

    ghost default = { λ t. t.default };

    ghost all = { λ t. keys t.items };

    fn default_toolchain(&self) -> &Text {
        &self.default
    }

    fn kind(&self, label: &Label) -> Option<ItemKind> {
        match self.item(label) {
            None => None,
            Some(item) => Some(item.kind),
        }
    }

    fn labels(&self, label: &Label, variable: Variable) -> &[Label] {
        match self.item(label) {
            None => &[],
            Some(item) => item.list(variable),
        }
    }

    fn node(&self, label: &Label) -> Node<'_> {
        Node {
            kind: self.kind(label),
            public: self.labels(label, Variable::PublicDeps),
            private: self.labels(label, Variable::Deps),
        }
    }

    fn pushed(&self, label: &Label) -> &[Label] {
        match self.record(label) {
            None => &[],
            Some(record) => record.pushed.as_slice(),
        }
    }

    fn pushed_public(&self, label: &Label) -> &[Label] {
        match self.record(label) {
            None => &[],
            Some(record) => record.pushed_public.as_slice(),
        }
    }

    ghost listed = { λ graph label h. listed (λ (item : Thing). item.kind) label graph.items.entries h };
}

impl Marks for Tree {
    ghost visibility = { visibility_in };

    ghost testonly = { testonly_in };

    ghost forbidden = { forbidden_in };

    fn visibility(&self, label: &Label) -> Option<&[Pattern]> {
        match self.item(label) {
            None => None,
            Some(item) => match &item.visibility {
                None => None,
                Some(patterns) => Some(patterns.as_slice()),
            },
        }
    }

    fn is_testonly(&self, label: &Label) -> bool {
        match self.item(label) {
            None => false,
            Some(item) => item.testonly,
        }
    }

    fn assert_no_deps(&self, label: &Label) -> &[Pattern] {
        match self.item(label) {
            None => &[],
            Some(item) => item.assert_no_deps.as_slice(),
        }
    }
}

impl Places for Tree {
    ghost places = { places_in };

    fn place(&self, label: &Label) -> Option<&Place> {
        match self.item(label) {
            None => None,
            Some(item) => Some(&item.place),
        }
    }
}
