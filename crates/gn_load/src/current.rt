// The base of the units that the seat works on.

ghost use Rattle.std.specs.Prelude.{◌≡◌, [], None, IfOk, OnOk, OnErr, true};
ghost use Rattle.gn_core.specs.Keys.{early, same_layer};
ghost use Rattle.gn_book.specs.Keys.{key_of, layer_at};
ghost use Rattle.gn_book.specs.Graphs.{is_unit};
ghost use Rattle.gn_book.specs.Logs.{state_of};
ghost use Rattle.gn_load.specs.Current.{layer_now, base_now, TurnsTo, TurnsToUnit};

use gn_answers::Answer;
use gn_bases::base_for;
use gn_book::Book;
use gn_items::{Key, When};
use gn_paths::Text;
use gn_unit::Base;
use std::alloc::{AllocError, Global};
use std::marker::Model;
use std::sync::Arc;

/// A base that several may have at once: a copy copies nothing of it. Contracts see the base.
#[derive(Drop)]
pub(crate) struct SharedBase {
    base: Arc<Base>,
}

impl Model for SharedBase {
    ghost use Rattle.gn_executions.specs.Base.{BaseState};
    ghost use Rattle.gn_evaluation_base.specs.contracts.base.Base.{the_row};

    ghost Value = { BaseState };

    ghost coded = { the_row.coded };

    ghost view = { λ b. b.base.value };
}

impl SharedBase {
    /// A base of its own.
    pub(crate) fn new(alloc: Global, base: Base) -> Result<SharedBase, AllocError>
        ensures { IfOk result (λ shared. shared ≡ base) }
    {
        Ok(SharedBase {
            base: Arc::new(alloc, base)?,
        })
    }

    /// The same base. Nothing of it is copied.
    pub(crate) fn copy(&self) -> Result<SharedBase, AllocError>
        ensures { IfOk result (λ shared. shared ≡ self.now) }
    {
        Ok(SharedBase {
            base: self.base.clone()?,
        })
    }

    /// The base.
    pub(crate) fn base(&self) -> &Base
        ensures { result.now ≡ self.now }
    {
        &self.base
    }
}

// A base, if there is one, that several may have at once.
fn shared(alloc: Global, base: Option<Base>) -> Result<Option<SharedBase>, AllocError>
    ensures { IfOk result (λ shared. shared ≡ base) }
{
    match base {
        Some(base) => Ok(Some(SharedBase::new(alloc, base)?)),
        None => Ok(None),
    }
}

/// The base of a layer, of which the seat works on units: the one with which the build starts, or another one, and the layer.
#[derive(Drop)]
pub(crate) struct CurrentBase {
    pub(crate) start: SharedBase,
    pub(crate) other: Option<SharedBase>,
    pub(crate) when: When,
    pub(crate) toolchain: Text,
}

impl CurrentBase {
    /// The base with which the build starts: that of the build configuration of the default toolchain.
    pub(crate) fn new(alloc: Global, start: Base) -> Result<CurrentBase, AllocError>
        ensures start { IfOk result (λ base. base.start ≡ start) }
        ensures other { IfOk result (λ base. base.other ≡ None) }
        ensures layer { IfOk result (λ base. layer_now base ≡ early []) }
    {
        Ok(CurrentBase {
            start: SharedBase::new(alloc, start)?,
            other: None,
            when: When::Early,
            toolchain: Text::new(alloc),
        })
    }

    // The base, which several may have at once.
    fn shared(&self) -> &SharedBase
        ensures { result.now ≡ base_now self.now }
    {
        match &self.other {
            Some(base) => base,
            None => &self.start,
        }
    }

    /// The base.
    pub(crate) fn base(&self) -> &Base
        ensures { result.now ≡ base_now self.now }
    {
        self.shared().base()
    }

    /// The base, which stays as it is when this becomes that of another layer.
    pub(crate) fn share(&self) -> Result<SharedBase, AllocError>
        ensures { IfOk result (λ base. base ≡ base_now self.now) }
    {
        self.shared().copy()
    }

    /// Whether it is that of a layer.
    pub(crate) fn is_of(&self, when: When, toolchain: &Text) -> bool
        ensures { result ≡ same_layer (layer_now self.now) (layer_at when toolchain.now) }
    {
        match (self.when, when) {
            (When::Early, When::Early) => self.toolchain.as_bytes() == toolchain.as_bytes(),
            (When::Usual, When::Usual) => self.toolchain.as_bytes() == toolchain.as_bytes(),
            (When::Early, When::Usual) => false,
            (When::Usual, When::Early) => false,
        }
    }

    // Becomes that of another layer, over what is filed. After want of memory nothing is changed.
    fn change(
        &mut self,
        alloc: Global,
        book: &Book<Answer>,
        when: When,
        toolchain: &Text,
    ) -> Result<(), AllocError>
        ensures ok { OnOk result (TurnsTo self.old self.new (state_of book.now).filed (layer_at when toolchain.now)) }
        ensures err { OnErr result (self.new ≡ self.old) }
    {
        let copy = toolchain.copy(alloc)?;
        let base = base_for(alloc, self.start.base(), book, when, toolchain)?;
        self.other = shared(alloc, base)?;
        self.when = when;
        self.toolchain = copy;
        Ok(())
    }

    // Becomes that of a layer, over what is filed, unless it is. After want of memory nothing is changed.
    fn turn_to(
        &mut self,
        alloc: Global,
        book: &Book<Answer>,
        when: When,
        toolchain: &Text,
    ) -> Result<(), AllocError>
        ensures ok { OnOk result (TurnsTo self.old self.new (state_of book.now).filed (layer_at when toolchain.now)) }
        ensures err { OnErr result (self.new ≡ self.old) }
    {
        if self.is_of(when, toolchain) {
            Ok(())
        } else {
            self.change(alloc, book, when, toolchain)
        }
    }

    /// Becomes that of the layer of a unit, over what is filed, unless it is. After want of memory nothing is changed.
    pub(crate) fn turn_to_unit(
        &mut self,
        alloc: Global,
        book: &Book<Answer>,
        unit: &Key,
    ) -> Result<(), AllocError>
        requires { is_unit (key_of unit.now) ≡ true }
        ensures ok { OnOk result (TurnsToUnit self.old self.new (state_of book.now).filed (key_of unit.now)) }
        ensures err { OnErr result (self.new ≡ self.old) }
    {
        match unit {
            Key::Setup(toolchain) => self.turn_to(alloc, book, When::Early, toolchain),
            Key::Load(_, toolchain) => self.turn_to(alloc, book, When::Usual, toolchain),
            Key::Read(_) => unreachable!(),
            Key::Import(..) => unreachable!(),
            Key::Resolve(_) => unreachable!(),
        }
    }
}
