// What ends a run of a scene.

/// What ends a run of a scene: a device that lost power while it was personalised, or want of memory.
#[derive(Clone, Copy, Debug, PartialEq, Eq)]
pub enum RunFault {
    Device,
    NoMemory,
}
