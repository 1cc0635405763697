//! The outside: bytes read from named files, and bytes put to a sink.
//!
//! | question | file |
//! |---|---|
//! | what a read and a put promise | `src/files.rt`, `src/sink.rt` |
//! | told contents; counts of faults | `specs/Contents.antt`; `specs/Faults.antt` |
//! | all bytes of a file; all bytes to a sink | `src/loading.rt`; `src/putting.rt` |
//! | why they fail | `src/fault.rt` |
//! | files in memory | `src/mem_files.rt`, `src/never_fails.rt`; the specs of these names |
//! | a sink in memory | `src/mem_sink.rt`; `specs/MemSink.antt` |
//! | what these stand on: named files; calls that are to fail | `src/folder.rt`; `src/calls.rt` |
//! | the disk, and the writers of std | `src/disk_files.rt`, `src/std_sink.rt`; `specs/StdSink.antt` |
//! | parts in a row are the front; pieces in a row are one | `proofs/Front.antt`; `proofs/Pieces.antt` |
//! | a file that was put is told | `proofs/AddedFile.antt` |
#![tactic(auto)]

mod calls;
mod disk_files;
mod fault;
mod files;
mod folder;
mod loading;
mod mem_files;
mod mem_sink;
mod never_fails;
mod putting;
mod sink;
mod std_sink;

pub use disk_files::DiskFiles;
pub use fault::{LoadError, WriteFault};
pub use files::{Failed, Files};
pub use loading::load;
pub use mem_files::MemFiles;
pub use mem_sink::MemSink;
pub use never_fails::NeverFails;
pub use putting::put_all;
pub use sink::Sink;
pub use std_sink::StdSink;
