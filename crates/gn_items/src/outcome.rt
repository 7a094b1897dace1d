// What an execution leaves beside its variables.

ghost use Rattle.std.specs.Prelude.{◌≡◌, [], OnOk, OnErr, map, option_map};
ghost use Rattle.gn_items.specs.Effects.{no_effects, is_defined, item_at, with_item, with_tool, with_toolchain, with_print, with_written, with_asked, with_declarations, with_default_toolchain};
ghost use Rattle.gn_items.specs.Tools.{has_name};
ghost use Rattle.gn_items.specs.Questions.{question_of};
ghost use Rattle.gn_runs.specs.Runs.{content_of, import_of};

use crate::declaration::Declaration;
use crate::default_toolchain::DefaultToolchain;
use crate::item::Item;
use crate::places::make_place;
use crate::question::Question;
use crate::tool::Tool;
use crate::tools::Tools;
use crate::written::Written;
use gn_labels::Label;
use gn_paths::{Path, Text, Texts};
use std::alloc::{AllocError, Global};
use std::collections::BTreeMap;
use std::marker::Model;
use std::mem;

/// What an execution leaves beside its variables: the items that it defines, toolchains with their tools, the lines that it
/// prints, the files that it writes, the questions that it asks and the arguments that it declares, each in order, and the
/// default toolchain that it names. Items of one label may stand in it twice; `has` tells in time whether a label is new, and
/// `item` finds the first of them. So may
/// files of one path, of which the last counts.
#[derive(Drop)]
pub struct Outcome {
    alloc: Global,
    items: Vec<Item>,
    // Of each label that an item has, how many items stand before the first one that has it.
    places: BTreeMap<Label, usize>,
    // The tools of the toolchain whose block is open.
    tools: Tools,
    prints: Vec<Text>,
    written: Vec<Written>,
    asked: Vec<Question>,
    declared: Vec<Declaration>,
    default_toolchain: Option<DefaultToolchain>,
}

impl Model for Outcome {
    ghost use Rattle.gn_items.specs.Effects.{Effects};
    ghost use Rattle.gn_items.specs.Codes.{effects_code};

    ghost Value = { Effects };

    ghost coded = { effects_code };

    ghost use Rattle.gn_labels.specs.declared.label.Label.{Label};
    ghost use Rattle.std.specs.Prelude.{map};
    ghost use Rattle.gn_items.specs.Labels.{HasPlaces};
    ghost use Rattle.gn_items.specs.Questions.{question_of};

    ghost view = { λ o. record { items = o.items.items; tools = o.tools; prints = o.prints.items; written = o.written.items; asked = map question_of o.asked.items; declared = o.declared.items; default_toolchain = o.default_toolchain } };

    ghost invariant = { λ o. HasPlaces ⟦<Label as Ord>⟧.cmp o.places o.items.items };
}

impl Outcome {
    /// No items, no lines, no files, no questions, no arguments and no default toolchain. It takes no memory.
    pub fn new(alloc: Global) -> Outcome
        ensures { result ≡ no_effects }
    {
        Outcome {
            alloc,
            items: Vec::new(alloc),
            places: BTreeMap::new(alloc),
            tools: Tools::new(alloc),
            prints: Vec::new(alloc),
            written: Vec::new(alloc),
            asked: Vec::new(alloc),
            declared: Vec::new(alloc),
            default_toolchain: None,
        }
    }

    /// Whether an item has the label. It takes no memory, and looks at logarithmically many labels.
    pub fn has(&self, label: &Label) -> bool
        ensures { result ≡ is_defined label.now self.now }
    {
        self.places.contains_key(label)
    }

    /// The first item that has the label, if one has it. It takes no memory, and looks at logarithmically many labels.
    pub fn item(&self, label: &Label) -> Option<&Item>
        ensures { option_map (λ i. i.now) result ≡ item_at label.now self.now.items }
    {
        match self.places.get(label) {
            Some(place) => self.items.get(*place),
            None => None,
        }
    }

    /// Puts an item behind the others. After want of memory nothing is changed, and the item is dropped.
    #[tactic(auto, unfolding(crate::specs::Effects::with_item))]
    pub fn add_item(&mut self, item: Item) -> Result<(), AllocError>
        ensures ok { OnOk result (self.new ≡ with_item item self.old) }
        ensures err { OnErr result (self.new ≡ self.old) }
    {
        make_place(self.alloc, &mut self.items, &mut self.places, &item.label)?;
        self.items.push_reserved(item);
        Ok(())
    }

    /// Whether the toolchain whose block is open has a tool of this name. It takes no memory.
    pub fn has_tool(&self, name: &[u8]) -> bool
        ensures { result ≡ has_name name.now self.now.tools }
    {
        self.tools.has(name)
    }

    /// Puts a tool behind those of the toolchain whose block is open. After want of memory nothing is changed, and the tool is
    /// dropped.
    #[tactic(auto, unfolding(crate::specs::Effects::with_tool))]
    pub fn add_tool(&mut self, tool: Tool) -> Result<(), AllocError>
        ensures ok { OnOk result (self.new ≡ with_tool tool self.old) }
        ensures err { OnErr result (self.new ≡ self.old) }
    {
        self.tools.push(tool)
    }

    // The tools of the toolchain whose block is open, which has none from then on.
    fn take_tools(&mut self) -> Tools
        ensures tools { result ≡ self.old.tools }
        ensures rest { self.new ≡ record self.old { tools = [] } }
    {
        let none = Tools::new(self.alloc);
        mem::replace(&mut self.tools, none)
    }

    /// Puts a toolchain, whose block has ended, behind the other items, with the tools that were defined in it. After want of
    /// memory the tools are gone, and the toolchain is dropped.
    pub fn add_toolchain(&mut self, item: Item) -> Result<(), AllocError>
        ensures { OnOk result (self.new ≡ with_toolchain item self.old) }
    {
        let mut item = item;
        item.tools = self.take_tools();
        self.add_item(item)
    }

    /// Puts a line behind the others. After want of memory nothing is changed, and the line is dropped.
    #[tactic(auto, unfolding(crate::specs::Effects::with_print))]
    pub fn print(&mut self, line: Text) -> Result<(), AllocError>
        ensures ok { OnOk result (self.new ≡ with_print line self.old) }
        ensures err { OnErr result (self.new ≡ self.old) }
    {
        self.prints.push(line)?;
        Ok(())
    }

    /// Puts a file that is written behind the others. After want of memory nothing is changed, and the file is dropped.
    #[tactic(auto, unfolding(crate::specs::Effects::with_written))]
    pub fn write(&mut self, file: Written) -> Result<(), AllocError>
        ensures ok { OnOk result (self.new ≡ with_written file self.old) }
        ensures err { OnErr result (self.new ≡ self.old) }
    {
        self.written.push(file)?;
        Ok(())
    }

    /// Notes that the content of the file at the path was asked for. After want of memory nothing is changed.
    pub fn ask_content(&mut self, path: &Path) -> Result<(), AllocError>
        ensures ok { OnOk result (self.new ≡ with_asked (content_of path.now) self.old) }
        ensures err { OnErr result (self.new ≡ self.old) }
    {
        let path = path.copy(self.alloc)?;
        self.asked.push(Question::Content(path))?;
        Ok(())
    }

    /// Notes that what an import of the file at the path leaves was asked for. After want of memory nothing is changed.
    pub fn ask_import(&mut self, path: &Path) -> Result<(), AllocError>
        ensures ok { OnOk result (self.new ≡ with_asked (import_of path.now) self.old) }
        ensures err { OnErr result (self.new ≡ self.old) }
    {
        let path = path.copy(self.alloc)?;
        self.asked.push(Question::Import(path))?;
        Ok(())
    }

    /// Puts arguments that are declared behind the others. After want of memory nothing is changed, and they are dropped.
    #[tactic(auto, unfolding(crate::specs::Effects::with_declarations))]
    pub fn declare(&mut self, declarations: Vec<Declaration>) -> Result<(), AllocError>
        ensures ok { OnOk result (self.new ≡ with_declarations declarations.items self.old) }
        ensures err { OnErr result (self.new ≡ self.old) }
    {
        let mut declarations = declarations;
        self.declared.append(&mut declarations)
    }

    /// Names the default toolchain, in place of one that was named before. It takes no memory.
    #[tactic(auto, unfolding(crate::specs::Effects::with_default_toolchain))]
    pub fn set_default_toolchain(&mut self, toolchain: DefaultToolchain)
        ensures { self.new ≡ with_default_toolchain toolchain self.old }
    {
        self.default_toolchain = Some(toolchain);
    }

    /// The questions asked, in order.
    pub fn asked(&self) -> &[Question]
        ensures { map question_of result.now ≡ self.now.asked }
    {
        self.asked.as_slice()
    }

    /// The questions asked, in order. It takes no memory.
    pub fn into_asked(self) -> Vec<Question>
        ensures { map question_of result.items ≡ self.asked }
    {
        self.asked
    }

    /// The lines printed, in order. It takes no memory.
    pub fn into_prints(self) -> Texts
        ensures { result ≡ self.prints }
    {
        Texts::from_vec(self.prints)
    }

    /// The items, in the order in which they were defined.
    pub fn items(&self) -> &[Item]
        ensures { result.now ≡ self.now.items }
    {
        self.items.as_slice()
    }

    /// The arguments declared, in the order in which their blocks ended, and of each block in the order of their names.
    pub fn declared(&self) -> &[Declaration]
        ensures { result.now ≡ self.now.declared }
    {
        self.declared.as_slice()
    }

    /// The default toolchain, if one is named.
    pub fn default_toolchain(&self) -> Option<&DefaultToolchain>
        ensures { option_map (λ t. t.now) result ≡ self.now.default_toolchain }
    {
        self.default_toolchain.as_ref()
    }

    /// The lines printed, in order.
    pub fn prints(&self) -> &[Text]
        ensures { result.now ≡ self.now.prints }
    {
        self.prints.as_slice()
    }

    /// The files written, in order. Of one path the last counts.
    pub fn written(&self) -> &[Written]
        ensures { result.now ≡ self.now.written }
    {
        self.written.as_slice()
    }
}
