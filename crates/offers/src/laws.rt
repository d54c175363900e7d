ghost use Rattle.std.specs.Prelude.{◌≡◌};
ghost use Rattle.java_units.specs.declared.types.Unit.{Unit};
ghost use Rattle.decl_index.specs.History.{State};
ghost use Rattle.java_bodies.specs.declared.site.HoleSite.{HoleSite};
ghost use Rattle.offers.specs.Scenes.{Scene};
ghost use Rattle.offers.specs.Offers.{IsSceneAt};

/// A hole has one scene.
pub fn one_scene()
    ensures law { (state : State) (unit : Unit) (site : HoleSite) (v w : Scene) → IsSceneAt state unit site v → IsSceneAt state unit site w → v ≡ w }
{}
