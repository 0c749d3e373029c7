ghost use Rattle.std.specs.Prelude.{ℕ};
ghost use Rattle.pre_topo.specs.declared.network.Network.{Network};
ghost use Rattle.pre_streams.specs.declared.rows.Streams.{Streams};
ghost use Rattle.pre_script.specs.declared.scripts.Script.{Script};
ghost use Rattle.pre_plant.specs.Plants.{IsPlant, AreSame};

/// A number has one plant.
pub fn plants_are_one()
    ensures { (n : ℕ) (net other : Network) (streams others : Streams) (script another : Script) → IsPlant n net streams script → IsPlant n other others another
        → AreSame net other streams others script another }
{}
