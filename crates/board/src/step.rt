// What a board in memory began with, and what was done to it since.

/// What a board held when it was made.
#[derive(Drop)]
pub enum First {
    Blank,
    Pages(Vec<[u8; 256]>),
}

/// A step by which a board changed. A torn one failed: it changed no octet, and left its pages loose
/// and not erased. A page stands beside its step, so that the others are small.
#[derive(Drop)]
pub enum Step {
    Program { place: u32, octets: Box<[u8; 256]> },
    TornProgram { place: u32 },
    Erase { block: u32 },
    TornErase { block: u32 },
    Barrier,
    Send { length: usize },
}
