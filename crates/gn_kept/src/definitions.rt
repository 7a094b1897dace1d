// Where definitions of templates stand.

ghost use Rattle.std.specs.Prelude.{◌≡◌, ◌++◌, ◌∷◌, IfOk, OnOk, option_map};
ghost use Rattle.std.specs.List.{list_any};
ghost use Rattle.gn_environment.specs.Imports.{same_definition};
ghost use Rattle.gn_environment.specs.Templates.{same_place, standing_in};

use gn_definitions::Definition;
use gn_paths::Place;
use std::alloc::{AllocError, Global};
use std::sync::Arc;

/// Where the definitions stand in whose bodies an evaluation is: that of the body that runs first, then those in whose bodies it
/// was made; none where no body runs.
pub fn standing_in(alloc: Global, body: &Option<Arc<Definition>>) -> Result<Vec<Place>, AllocError>
    ensures { IfOk result
        (λ places. places.items ≡ standing_in (option_map (λ d. d.value) body.now)) }
{
    let mut places = Vec::new(alloc);
    if let Some(body) = body {
        places.push(body.place().copy(alloc)?)?;
        copy_places(&mut places, alloc, body.enclosing())?;
    }
    Ok(places)
}

// Copies places behind others.
fn copy_places(places: &mut Vec<Place>, alloc: Global, others: &[Place]) -> Result<(), AllocError>
    ensures { OnOk result (places.new.items ≡ places.old.items ++ others.now) }
{
    for place in others {
        places.push(place.copy(alloc)?)?;
    }
    Ok(())
}

/// Whether a place is where the body's definition stands, or one in whose body that was made. It takes no memory.
pub fn is_inside(place: &Place, body: &Definition) -> bool
    ensures { result ≡ list_any (same_place place.now) (body.now.place ∷ body.now.enclosing) }
{
    place == body.place() || is_among(place, body.enclosing())
}

// Whether a place is one of these.
fn is_among(place: &Place, places: &[Place]) -> bool
    ensures { result ≡ list_any (same_place place.now) places.now }
{
    for other in places {
        if place == other {
            return true;
        }
    }
    false
}

/// Whether two definitions stand at one place, or neither is there. It takes no memory.
pub fn same_definition(left: Option<&Arc<Definition>>, right: Option<&Arc<Definition>>) -> bool
    ensures { result
        ≡ same_definition (option_map (λ d. d.now.value) left.entry) (option_map (λ d. d.now.value) right.entry) }
{
    match (left, right) {
        (Some(left), Some(right)) => *left.place() == *right.place(),
        (None, None) => true,
        _ => false,
    }
}
