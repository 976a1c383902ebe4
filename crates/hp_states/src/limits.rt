//! The anchors of the state table, the error numbers and the limits of the project.

/// The lowest state: the processor is down. The order of the anchors is that of `cpuhotplug.h`,
/// their numbers are this project's own.
pub const OFFLINE: u32 = 0;
/// The first slot that a setup of any free PREPARE state may be given.
pub const PREPARE_DYN: u32 = 41;
/// The last of those 21 slots.
pub const PREPARE_DYN_END: u32 = 61;
/// The last PREPARE state: above it a processor makes its own entries.
pub const BRINGUP_CPU: u32 = 62;
/// The last STARTING state.
pub const AP_ONLINE: u32 = 100;
/// The first ONLINE state: a processor at or above it is online.
pub const TEARDOWN_CPU: u32 = 101;
/// The first slot that a setup of any free ONLINE state may be given.
pub const ONLINE_DYN: u32 = 141;
/// The last of those 31 slots.
pub const ONLINE_DYN_END: u32 = 171;
/// The highest state: the processor is up.
pub const ONLINE: u32 = 200;

/// Operation not permitted. The error numbers are those of Linux.
pub const EPERM: u32 = 1;
/// Try again.
pub const EAGAIN: u32 = 11;
/// Busy.
pub const EBUSY: u32 = 16;
/// Invalid argument.
pub const EINVAL: u32 = 22;
/// No space left.
pub const ENOSPC: u32 = 28;
/// It would wait for itself.
pub const EDEADLK: u32 = 35;

/// The most processors of a machine.
pub const MAX_CPUS: u32 = 256;
/// The numbers that a set of processors may have are below this.
pub const MAX_CPU_SET: u32 = 256;
/// The most subsystems of a script.
pub const MAX_SUBS: u32 = 128;
/// The most rules of a callback's plan.
pub const MAX_RULES: u32 = 8;
/// The highest processor that a rule speaks of.
pub const MAX_RULE_CPU: u32 = 255;
/// The most bytes of a subsystem's or an actor's name.
pub const MAX_NAME_LEN: u32 = 32;
/// The highest code that a callback answers.
pub const MAX_CODE: u32 = 4095;
/// The most seats that are ever admitted to a machine.
pub const MAX_SEATS: u32 = 320;
/// The most actors of a script.
pub const MAX_ACTORS: u32 = 32;
/// The most operations of an actor.
pub const MAX_OPERATIONS: u32 = 4096;
/// The most operations that are drawn for each actor of a generated script.
pub const MAX_GENERATED_SIZE: u32 = 1000;
/// The most instances of a state.
pub const MAX_INSTANCES: u32 = 256;
/// The most instances of all states together.
pub const MAX_TABLE_INSTANCES: u32 = 4096;
/// The highest number of an instance in a script.
pub const MAX_INSTANCE: u32 = 65535;
/// The most events of a journal, with those that are promised.
pub const MAX_EVENTS: u32 = 1_048_576;
/// The most bytes of a script.
pub const MAX_SCRIPT_BYTES: u32 = 1_048_576;
/// The most bytes of a journal's text.
pub const MAX_JOURNAL_BYTES: u32 = 134_217_728;
