ghost use Rattle.std.specs.Prelude.{◌≡◌, Ok};
ghost use Rattle.pre_topo.specs.declared.network.Network.{Network};
ghost use Rattle.pre_streams.specs.declared.rows.Streams.{Streams};
ghost use Rattle.pre_streams.specs.Fits as streams_rules;
ghost use Rattle.pre_script.specs.declared.scripts.Script.{Script};
ghost use Rattle.pre_script.specs.Fits.{Fits};
ghost use Rattle.pre_script.specs.Reading.{script_of};
ghost use Rattle.pre_script.specs.Same.{IsSame};
ghost use Rattle.pre_script.specs.Text.{script_text};

/// The text that `put_script` writes of a script that fits is read as the same script, but for the numbers of its lines.
pub fn script_reads_back()
    ensures { (net : Network) (streams : Streams) (script : Script) → streams_rules.Fits net streams → Fits net streams script
        → (read : Script) × (script_of net streams (script_text net streams script) ≡ Ok read) × IsSame read script }
{}
