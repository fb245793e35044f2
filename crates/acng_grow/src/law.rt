//! The laws of bodies, over definitions alone.
ghost use Rattle.acng_grow.specs.Events.{BodiesGrow, EffectsKeep};

use acng_site::Site;

/// However a body's events come, its text only grows, and what a reader took in order stands in the file.
pub fn bodies_grow<S: Site>()
    ensures { BodiesGrow S.Site }
{}

/// An effect that is allowed where it comes keeps all that a body keeps.
pub fn effects_keep<S: Site>()
    ensures { EffectsKeep S.Site }
{}
