use control::{Plate, State};
use display::Panel;

// A monitor owns its gauge and its switch: nothing else works them.
#[derive(Drop)]
pub struct Monitor<G, S> {
    pub(crate) gauge: G,
    pub(crate) switch: S,
    pub(crate) plate: Plate,
    pub(crate) state: State,
    pub(crate) panel: Panel,
}
