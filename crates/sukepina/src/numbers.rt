// The numbers that cross to C. None of these types has an invariant, since nothing holds C to one: a yes or
// no is 0 or 1 in 32 bits, and whether the numbers make sense is looked at in every call. C has no `Option` and no
// `Result`: a number that may be missing stands beside its flag, and a level beside its fault.
use control::PlateNumbers;

// One step; `facts` has the five flags of a step record.
#[repr(C)]
#[derive(Clone, Copy)]
pub struct StepNumbers {
    pub time: u64,
    pub a: u32,
    pub b: u32,
    pub facts: u32,
}

// What every monitor keeps, whichever its gauge and its switch.
#[repr(C)]
#[derive(Clone, Copy)]
pub struct CoreNumbers {
    pub time: u64,
    pub entered: u64,
    pub reset_since: u64,
    pub test_since: u64,
    pub plate: PlateNumbers,
    // 0 dark, 1 standby, 2 operating, 3 shutdown, 4 test
    pub mode: u32,
    // 0 allok, 1 badlevdev, 2 hardfail
    pub failure: u32,
    pub signal: u32,
    pub watchdog: u32,
    pub reset_down: u32,
    pub test_down: u32,
    pub high: u32,
    pub low: u32,
    pub alarm: u32,
    pub figure: [u8; 4],
}

// A monitor with a pressure cell and a direct contact.
#[repr(C)]
#[derive(Clone, Copy)]
pub struct CellNumbers {
    pub core: CoreNumbers,
    // the last word A, once one was taken
    pub taken: u32,
    pub word: u32,
    pub closed: u32,
}

// A monitor with an echo gauge, and a rest layer over a drive word.
#[repr(C)]
#[derive(Clone, Copy)]
pub struct EchoNumbers {
    pub core: CoreNumbers,
    pub rest: u64,
    pub last_tick: u64,
    // the opening tick, once there was an opening
    pub opening: u64,
    pub opened: u32,
    pub mount: f32,
    // the cause of a fault, or 0 and a level
    pub fault: u32,
    pub level: u32,
    pub drive: u32,
}
