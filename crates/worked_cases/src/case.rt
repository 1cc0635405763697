// A worked case: words, files, devices, and what is wanted.
use std::alloc::Global;

/// A command line over files in memory, and what is wanted of its run.
#[derive(Drop)]
pub(crate) struct Case {
    pub name: String,
    pub words: Vec<String>,
    pub files: Vec<File>,
    pub wanted: Wanted,
    pub devices: Devices,
    /// The sink that fails after each number of bytes in turn.
    pub cut: Option<Stream>,
    /// A name of which a read fails before the run.
    pub read_before: Option<String>,
}

/// A file with its name.
#[derive(Drop)]
pub(crate) struct File {
    pub name: String,
    pub bytes: Vec<u8>,
}

/// What a run leaves on the two streams, and its exit status.
#[derive(Drop)]
pub(crate) struct Wanted {
    pub out: Vec<u8>,
    pub err: Vec<u8>,
    pub status: u8,
}

/// One of the two streams.
#[derive(Clone, Copy)]
pub(crate) enum Stream {
    Out,
    Err,
}

/// How the files and the two sinks of a case behave.
#[derive(Clone, Copy)]
pub(crate) struct Devices {
    /// The number of the read that fails, from 1; 0 where none does.
    pub failing_read: u64,
    pub out: Taking,
    pub err: Taking,
}

/// How a sink takes bytes.
#[derive(Clone, Copy)]
pub(crate) struct Taking {
    /// How many bytes a call takes at most.
    pub per_call: usize,
    /// The number of the call that fails, from 1; 0 where none does.
    pub failing: u64,
}

impl Taking {
    /// Ten bytes a call, so that a line takes several, and none fails.
    pub(crate) const PLAIN: Taking = Taking {
        per_call: 10,
        failing: 0,
    };

    /// One byte a call, and the call after so many bytes fails.
    pub(crate) fn cut_after(bytes: usize) -> Taking {
        Taking {
            per_call: 1,
            failing: (bytes as u64).saturating_add(1),
        }
    }
}

impl Devices {
    /// No device fails.
    pub(crate) const PLAIN: Devices = Devices {
        failing_read: 0,
        out: Taking::PLAIN,
        err: Taking::PLAIN,
    };
}

impl Case {
    /// A case without words and files, of which nothing is wanted and status 0.
    pub(crate) fn new(alloc: Global, name: String) -> Case {
        Case {
            name,
            words: Vec::new(alloc),
            files: Vec::new(alloc),
            wanted: Wanted {
                out: Vec::new(alloc),
                err: Vec::new(alloc),
                status: 0,
            },
            devices: Devices::PLAIN,
            cut: None,
            read_before: None,
        }
    }
}
