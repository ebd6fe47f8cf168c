// What holds of every rig and every layer, as theorems about their meanings.
ghost use Rattle.device.specs.Composed.{RigsCompose};
ghost use Rattle.device.specs.Stacked.{LayersStack};

// Devices before one another, or in a row, show what each shows; a letter to a port goes to its device and changes no other.
pub fn rigs_compose()
    ensures { RigsCompose }
{}

// Trails and patches stack in any order; a trail among them changes nothing, and what they mean stays lawful.
pub fn layers_stack()
    ensures { LayersStack }
{}
