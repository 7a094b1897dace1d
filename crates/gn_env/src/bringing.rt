// Calls that bring names into the innermost scope, which declares them if it declares names: imports and forwarding.

ghost use Rattle.std.specs.Prelude.{◌≡◌, ◌++◌, IfOk, OnOk, OnErr, IfErr, IfSome, Ok, Err, map};
ghost use Rattle.gn_values.specs.View.{entry_of};
ghost use Rattle.gn_environment.specs.Declaring.{place_brought, places_brought, brought, import_brought, names_brought, names_of_all, all_brought};
ghost use Rattle.gn_environment.specs.Forwarding.{forwarded_names};
ghost use Rattle.gn_env.specs.Arguments.{brought_state};
ghost use Rattle.gn_env.specs.Conflicts.{conflict_of};
ghost use Rattle.gn_env.specs.Origins.{origin_of, name_set};

use crate::env::Env;
use crate::forwarding::ForwardError;
use crate::imports::MergeError;
use gn_callers::Origin;
use gn_definitions::ImportValue;
use gn_paths::{Text, Texts};
use gn_tree::Position;
use gn_values::Entry;
use std::alloc::{AllocError, Global};

// A name that a call brings into a scope that declares names, and where it is declared then.
#[derive(Drop)]
pub(crate) struct Brought {
    name: Text,
    position: Position,
}

impl Env {
    /// Merges what an import left into the innermost scope, as `merge` does. If the scope declares names, those of its variables
    /// are declared there: where they were before, or else at the position of the call. After a refusal nothing is changed.
    #[tactic(auto, unfolding(gn_environment::specs::Declaring::import_brought))]
    pub fn bring_import(
        &mut self,
        alloc: Global,
        value: &ImportValue,
        position: Position,
    ) -> Result<(), MergeError>
        ensures ok { OnOk result (import_brought position value.now self.old ≡ Ok self.new) }
        ensures conflict { IfErr result
            (λ e. IfSome (conflict_of e)
            (λ name. import_brought position value.now self.old ≡ Err name)) }
        ensures err { OnErr result (self.new ≡ self.old) }
    {
        let places = self.import_places(alloc, value, position)?;
        self.merge(alloc, value)?;
        self.declare_brought(&places);
        Ok(())
    }

    /// Forwards names of a list into the innermost scope, as `forward_names` does. If the scope declares names, those that are
    /// copied are declared there, as by `bring_import`. After a refusal nothing is changed.
    #[tactic(auto, unfolding(gn_environment::specs::Declaring::names_brought))]
    pub fn bring_names(
        &mut self,
        alloc: Global,
        from: Origin<'_>,
        names: &Texts,
        except: &Texts,
        position: Position,
    ) -> Result<(), ForwardError>
        ensures ok { OnOk result
            (names_brought position (origin_of from.entry) names.now except.now self.old
            ≡ Ok self.new) }
        ensures set { IfErr result
            (λ e. IfSome (name_set e)
            (λ name. names_brought position (origin_of from.entry) names.now except.now self.old
            ≡ Err name)) }
        ensures err { OnErr result (self.new ≡ self.old) }
    {
        let places = self.name_places(alloc, from, names, except, position)?;
        self.forward_names(alloc, from, names, except)?;
        self.declare_brought(&places);
        Ok(())
    }

    /// Forwards all names into the innermost scope, as `forward_all` does. If the scope declares names, those that are copied are
    /// declared there, as by `bring_import`. After want of memory nothing is changed.
    #[tactic(auto, unfolding(gn_environment::specs::Declaring::all_brought))]
    pub fn bring_all(
        &mut self,
        alloc: Global,
        from: Origin<'_>,
        except: &Texts,
        position: Position,
    ) -> Result<(), AllocError>
        ensures ok { OnOk result
            (self.new ≡ all_brought position (origin_of from.entry) except.now self.old) }
        ensures err { OnErr result (self.new ≡ self.old) }
    {
        let places = self.all_places(alloc, from, except, position)?;
        self.forward_all(alloc, from, except)?;
        self.declare_brought(&places);
        Ok(())
    }

    // Whether the innermost scope declares names.
    fn declares(&self) -> bool
        ensures { result ≡ self.now.chain.inner.declares }
    {
        self.scopes.innermost().declares()
    }

    // Where a name is declared that a call at the position brings into the innermost scope.
    fn place_brought(
        &self,
        alloc: Global,
        position: Position,
        name: &Text,
    ) -> Result<Brought, AllocError>
        ensures { IfOk result (λ b. brought_state b ≡ place_brought position self.now name.now) }
    {
        let position = match self.declared_here(name) {
            Some(first) => first,
            None => position,
        };
        let name = name.copy(alloc)?;
        Ok(Brought { name, position })
    }

    // The same of each of these names.
    fn each_brought(
        &self,
        alloc: Global,
        position: Position,
        names: &[&Text],
    ) -> Result<Vec<Brought>, AllocError>
        ensures { IfOk result
            (λ places. map brought_state places.items
            ≡ map (place_brought position self.now) (map (λ n. n.now) names.now)) }
    {
        let mut places = Vec::new(alloc);
        for name in names {
            places.push(self.place_brought(alloc, position, name)?)?;
        }
        Ok(places)
    }

    // Where the variables of an import are declared that a call at the position brings into the innermost scope, if that declares
    // names.
    fn import_places(
        &self,
        alloc: Global,
        value: &ImportValue,
        position: Position,
    ) -> Result<Vec<Brought>, AllocError>
        ensures { IfOk result (λ places. map brought_state places.items
            ≡ places_brought position self.now (map (λ v. v.0) value.now.scope.variables)) }
    {
        if !self.declares() {
            return Ok(Vec::new(alloc));
        }
        self.entry_places(alloc, value.scope().variables().as_slice(), position)
    }

    // The same of the names of a list that are forwarded.
    fn name_places(
        &self,
        alloc: Global,
        from: Origin<'_>,
        names: &Texts,
        except: &Texts,
        position: Position,
    ) -> Result<Vec<Brought>, AllocError>
        ensures { IfOk result (λ places. map brought_state places.items
            ≡ places_brought position self.now
            (forwarded_names (origin_of from.entry) names.now except.now self.now)) }
    {
        if !self.declares() {
            return Ok(Vec::new(alloc));
        }
        let chosen = self.chosen(alloc, from, names, except)?;
        self.each_brought(alloc, position, &chosen)
    }

    // The same of all names that are forwarded.
    fn all_places(
        &self,
        alloc: Global,
        from: Origin<'_>,
        except: &Texts,
        position: Position,
    ) -> Result<Vec<Brought>, AllocError>
        ensures { IfOk result (λ places. map brought_state places.items
            ≡ places_brought position self.now (names_of_all (origin_of from.entry) except.now self.now)) }
    {
        if !self.declares() {
            return Ok(Vec::new(alloc));
        }
        let entries = self.callers.entries_from(alloc, from, except)?;
        self.entry_places(alloc, &entries, position)
    }

    // Where the names of entries are declared that a call at the position brings into the innermost scope, which declares names.
    fn entry_places(
        &self,
        alloc: Global,
        entries: &[Entry],
        position: Position,
    ) -> Result<Vec<Brought>, AllocError>
        ensures { IfOk result (λ places. map brought_state places.items
            ≡ map (place_brought position self.now) (map (λ e. e.0) (map entry_of entries.now))) }
    {
        let names = names_of(alloc, entries)?;
        self.each_brought(alloc, position, &names)
    }

    // Declares names of the innermost scope at these places.
    fn declare_brought(&mut self, places: &[Brought])
        ensures { self.new ≡ brought (map brought_state places.now) self.old }
    {
        for place in places {
            self.declare(&place.name, place.position);
        }
    }
}

// The names of entries.
fn names_of(alloc: Global, entries: &[Entry]) -> Result<Vec<&Text>, AllocError>
    ensures { IfOk result
        (λ names. map (λ n. n.now) names.items ≡ map (λ e. e.0) (map entry_of entries.now)) }
{
    let mut names = Vec::new(alloc);
    for entry in entries {
        names.push(&entry.name)?;
    }
    Ok(names)
}
