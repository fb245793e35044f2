//! Laws of readings. Nothing is computed.
ghost use Rattle.std.specs.Prelude.{◌≡◌, List, ℕ, false, Ok};
ghost use Rattle.acng_remap.specs.Origins.{ServesTargets, is_orphan, is_place};
ghost use Rattle.acng_remap.specs.Readings.{reading};
ghost use Rattle.acng_remap.specs.declared.target.Target.TheVariants.{File};

use acng_conf::Conf;

/// Two targets that read as one path have the same origins, outside groups without targets: whichever of them is asked
/// first, what is fetched may stand for the other. It rests on the names of a configuration's groups: each is its own,
/// and none has a slash or a colon.
pub fn one_path_one_origins(conf: &Conf)
    ensures { (method target other_method other_target path : List ℕ) (origins others : List (List ℕ))
        → is_orphan conf.now.groups path ≡ false → reading conf.now method target ≡ Ok (File path origins)
        → reading conf.now other_method other_target ≡ Ok (File path others) → origins ≡ others }
{
    let _groups = conf.groups();
}

/// A site whose places of a path are its origins serves the targets of the configuration: so the condition that a site
/// serves them can be met, whatever the configuration.
pub fn origins_serve_targets(conf: &Conf)
    ensures { ServesTargets conf.now (is_place conf.now.groups) }
{
    let _groups = conf.groups();
}
