//! Laws of what stops leave, for the crates above to cite.
ghost use Rattle.acng_keeper.specs.Images.{ImagesAreApart};

/// No body of what a stop leaves is both sealed and unsealed.
pub fn images_are_apart()
    ensures { ImagesAreApart }
{}
