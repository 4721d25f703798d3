// The five numbers of a plate, in units of 0.00001 cm, not yet checked.
#[repr(C)]
#[derive(Clone, Copy, PartialEq, Eq, Debug)]
pub struct PlateNumbers {
    pub low_mark: u32,
    pub low_limit: u32,
    pub high_limit: u32,
    pub high_mark: u32,
    pub hysteresis: u32,
}
