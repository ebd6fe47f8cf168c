// The type of the console's devices.
use crate::layered::Layered;
use device::Projector;

// Projectors under at most eight layers.
pub(crate) type Nest<'a> = Layered<'a, Under1<'a>>;

type Under1<'a> = Layered<'a, Under2<'a>>;

type Under2<'a> = Layered<'a, Under3<'a>>;

type Under3<'a> = Layered<'a, Under4<'a>>;

type Under4<'a> = Layered<'a, Under5<'a>>;

type Under5<'a> = Layered<'a, Under6<'a>>;

type Under6<'a> = Layered<'a, Under7<'a>>;

type Under7<'a> = Layered<'a, Projector<'a>>;
