// The search by breadth for a label along dependencies.

ghost use Rattle.std.specs.Prelude.{◌≡◌, ◌++◌, ◌-◌, [], OnOk, IfOk, length, replicate};
ghost use Rattle.gn_dependencies.specs.Lists.{added};
ghost use Rattle.gn_dependencies.specs.Shape.{all_deps};
ghost use Rattle.gn_cycles.specs.Search.{IsSearched};

use gn_chains::{Firsts, Graph};
use gn_labels::Label;
use gn_rows::Variable;
use std::alloc::{AllocError, Global};

// What a search has met. The labels have numbers from 1 on in the order in which they were met first, and for each stands the
// number from which it was met; 0 is the label from which the search starts.
#[derive(Drop)]
pub(crate) struct Search {
    pub(crate) labels: Firsts,
    pub(crate) sources: Vec<usize>,
}

// The dependencies of a label: public, private, of data.
fn dependencies<'a, G: Graph>(
    graph: &'a G,
    label: &Label,
) -> (&'a [Label], &'a [Label], &'a [Label])
    ensures { (result.0.now ++ result.1.now) ++ result.2.now ≡ all_deps (G.shape graph.now) label.now }
{
    (
        graph.labels(label, Variable::PublicDeps),
        graph.labels(label, Variable::Deps),
        graph.labels(label, Variable::DataDeps),
    )
}

// Puts a number behind others until there are so many.
fn fill(numbers: &mut Vec<usize>, len: usize, number: usize) -> Result<(), AllocError>
    ensures { OnOk result (numbers.new.items ≡ numbers.old.items ++ replicate (len - length numbers.old.items) number) }
{
    while numbers.len() < len {
        numbers.push(number)?;
    }
    Ok(())
}

impl Search {
    // A search that has met nothing.
    fn new(alloc: Global) -> Search
        ensures labels { result.labels ≡ [] }
        ensures sources { result.sources.items ≡ [] }
    {
        Search {
            labels: Firsts::new(alloc),
            sources: Vec::new(alloc),
        }
    }

    // Meets the labels from a number.
    fn meet(
        &mut self,
        labels: (&[Label], &[Label], &[Label]),
        number: usize,
    ) -> Result<(), AllocError>
        ensures labels { OnOk result (self.new.labels ≡ added self.old.labels ((labels.entry.0.now ++ labels.entry.1.now) ++ labels.entry.2.now)) }
        ensures sources { OnOk result (self.new.sources.items ≡ self.old.sources.items ++ replicate (length self.new.labels - length self.old.sources.items) number) }
    {
        self.labels.add_all(labels.0)?;
        self.labels.add_all(labels.1)?;
        self.labels.add_all(labels.2)?;
        fill(&mut self.sources, self.labels.len(), number)
    }

    // Searches for a label from another along all dependencies, having met nothing yet.
    fn run<G: Graph>(&mut self, from: &Label, to: &Label, graph: &G) -> Result<(), AllocError>
        requires labels { self.old.labels ≡ [] }
        requires sources { self.old.sources.items ≡ [] }
        ensures { OnOk result (IsSearched (all_deps (G.shape graph.now)) from.now to.now self.new.labels self.new.sources.items) }
    {
        self.meet(dependencies(graph, from), 0)?;
        let mut next = 0;
        while next < self.labels.len() && !self.labels.has(to) {
            let found = dependencies(graph, self.labels.at(next));
            next += 1;
            self.meet(found, next)?;
        }
        Ok(())
    }
}

// Searches for a label from another along all dependencies.
pub(crate) fn searched<G: Graph>(
    alloc: Global,
    from: &Label,
    to: &Label,
    graph: &G,
) -> Result<Search, AllocError>
    ensures { IfOk result (λ s. IsSearched (all_deps (G.shape graph.now)) from.now to.now s.labels s.sources.items) }
{
    let mut search = Search::new(alloc);
    if let Err(error) = search.run(from, to, graph) {
        drop(search);
        return Err(error);
    }
    Ok(search)
}
