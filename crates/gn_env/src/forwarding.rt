// Forwarding variables, and names that count as read.

ghost use Rattle.std.specs.Prelude.{◌≡◌, IfOk, OnOk, OnErr, IfErr, IfSome, Err, Ok, map, option_map};
ghost use Rattle.std.specs.List.{find};
ghost use Rattle.gn_environment.specs.Forwarding.{origin_value, forwarded_names, names_given, is_set_here, forwarded_unless};
ghost use Rattle.gn_environment.specs.Forwarding.{names_forwarded, all_forwarded, after_names_read_here, after_all_read_here};
ghost use Rattle.gn_env.specs.Origins.{origin_of, name_set};

use crate::env::Env;
use gn_callers::Origin;
use gn_layers::NameSet;
use gn_paths::{Text, Texts};
use std::alloc::{AllocError, Global};

/// Why variables aren't forwarded.
#[derive(Debug, Drop)]
pub enum ForwardError {
    /// The first of the names that the innermost scope already has.
    AlreadySet(Text),
    /// Want of memory.
    Memory,
}

impl From<AllocError> for ForwardError {
    ghost use Rattle.std.specs.Prelude.{◌≡◌};
    ghost use Rattle.gn_env.specs.declared.forwarding.ForwardError.TheVariants.{Memory};

    ghost from_gives = { λ _ e. e ≡ Memory };

    fn from(_error: AllocError) -> ForwardError {
        ForwardError::Memory
    }
}

impl Env {
    /// `forward_variables_from` with a list of names: those that are there, but for the excepted ones, are read there, and
    /// given copies of their values in the innermost scope, where they count as read. `AlreadySet` comes exactly where
    /// that scope has one of them, and names the first. After a refusal nothing is changed. The work is n log n in the
    /// names.
    #[tactic(auto, unfolding(gn_environment::specs::Forwarding::names_forwarded))]
    pub fn forward_names(
        &mut self,
        alloc: Global,
        from: Origin<'_>,
        names: &Texts,
        except: &Texts,
    ) -> Result<(), ForwardError>
        ensures ok { OnOk result
            (names_forwarded (origin_of from.entry) names.now except.now self.old ≡ Ok self.new) }
        ensures set { IfErr result
            (λ e. IfSome (name_set e)
            (λ name. names_forwarded (origin_of from.entry) names.now except.now self.old ≡ Err name)) }
        ensures err { OnErr result (self.new ≡ self.old) }
    {
        let chosen = self.chosen(alloc, from, names, except)?;
        self.forward_chosen(alloc, from, chosen.as_slice())
    }

    /// `forward_variables_from` with `"*"`: all that stands directly there, but for `target_name` and the excepted names,
    /// is given copies of its values in the innermost scope, whatever stood there, and counts as read. All names there
    /// count as read. After want of memory nothing is changed. The work is n log n in the names.
    #[tactic(auto, unfolding(gn_environment::specs::Forwarding::all_forwarded))]
    pub fn forward_all(
        &mut self,
        alloc: Global,
        from: Origin<'_>,
        except: &Texts,
    ) -> Result<(), AllocError>
        ensures ok { OnOk result (self.new ≡ all_forwarded (origin_of from.entry) except.now self.old) }
        ensures err { OnErr result (self.new ≡ self.old) }
    {
        let copies = self.callers.entries_from(alloc, from, except)?;
        self.scopes.give_all(alloc, copies)?;
        self.callers.read_all_from(from);
        Ok(())
    }

    /// `not_needed` with a list of names: those that the innermost scope has, but for the excepted ones, count as read.
    /// After want of memory nothing is changed.
    #[tactic(auto, unfolding(gn_environment::specs::Forwarding::after_names_read_here))]
    pub fn read_names_here(
        &mut self,
        alloc: Global,
        names: &Texts,
        except: &Texts,
    ) -> Result<(), AllocError>
        ensures ok { OnOk result (self.new ≡ after_names_read_here names.now except.now self.old) }
        ensures err { OnErr result (self.new ≡ self.old) }
    {
        let except = NameSet::new(alloc, except)?;
        self.scopes.read_names_here(names, &except);
        Ok(())
    }

    /// `not_needed` with `"*"`: all names of the innermost scope but the excepted ones count as read. After want of memory
    /// nothing is changed.
    #[tactic(auto, unfolding(gn_environment::specs::Forwarding::after_all_read_here))]
    pub fn read_all_here(&mut self, alloc: Global, except: &Texts) -> Result<(), AllocError>
        ensures ok { OnOk result (self.new ≡ after_all_read_here except.now self.old) }
        ensures err { OnErr result (self.new ≡ self.old) }
    {
        let except = NameSet::new(alloc, except)?;
        self.scopes.read_all_here_but(&except);
        Ok(())
    }

    /// The names that are there, but for the excepted ones, by the list of these.
    #[tactic(auto, using(crate::proofs::Forwarded::names_are_there))]
    pub(crate) fn chosen<'a>(
        &self,
        alloc: Global,
        from: Origin<'_>,
        names: &'a Texts,
        except: &Texts,
    ) -> Result<Vec<&'a Text>, AllocError>
        ensures { IfOk result (λ chosen. map (λ n. n.now) chosen.items
            ≡ forwarded_names (origin_of from.entry) names.now except.now self.now) }
    {
        self.callers.names_from(alloc, from, names, except)
    }

    // Forwards names that are there, unless the innermost scope has one of them. After a refusal nothing is changed.
    fn forward_chosen(
        &mut self,
        alloc: Global,
        from: Origin<'_>,
        names: &[&Text],
    ) -> Result<(), ForwardError>
        ensures ok { OnOk result
            (forwarded_unless (find (is_set_here self.old) (map (λ n. n.now) names.now))
            (names_given (origin_value (origin_of from.entry) self.old) (origin_of from.entry)
            (map (λ n. n.now) names.now) self.old) ≡ Ok self.new) }
        ensures set { IfErr result
            (λ e. IfSome (name_set e)
            (λ name. forwarded_unless (find (is_set_here self.old) (map (λ n. n.now) names.now))
            (names_given (origin_value (origin_of from.entry) self.old) (origin_of from.entry)
            (map (λ n. n.now) names.now) self.old) ≡ Err name)) }
        ensures err { OnErr result (self.new ≡ self.old) }
    {
        match self.first_set(names) {
            Some(name) => Err(ForwardError::AlreadySet(name.copy(alloc)?)),
            None => {
                self.give_from(alloc, from, names)?;
                Ok(())
            }
        }
    }

    /// Whether the innermost scope has a name; that of a body has the invoker.
    pub(crate) fn is_set_here(&self, name: &Text) -> bool
        ensures { result ≡ is_set_here self.now name.now }
    {
        self.scopes.has_here(name) || self.is_invoker_here(name)
    }

    // The first of the names that the innermost scope has.
    fn first_set<'a>(&self, names: &[&'a Text]) -> Option<&'a Text>
        ensures { option_map (λ n. n.now) result
            ≡ find (is_set_here self.now) (map (λ n. n.now) names.now) }
    {
        for name in names {
            if self.is_set_here(name) {
                return Some(name);
            }
        }
        None
    }

    // Reads each name there, and gives it a copy of its value here. After want of memory nothing is changed.
    fn give_from(
        &mut self,
        alloc: Global,
        from: Origin<'_>,
        names: &[&Text],
    ) -> Result<(), AllocError>
        ensures ok { OnOk result
            (self.new
            ≡ names_given (origin_value (origin_of from.entry) self.old) (origin_of from.entry)
            (map (λ n. n.now) names.now) self.old) }
        ensures err { OnErr result (self.new ≡ self.old) }
    {
        let entries = self.callers.copies_from(alloc, from, names)?;
        self.scopes.give_all(alloc, entries)?;
        self.callers.read_from(from, names);
        Ok(())
    }
}
