// What a run is given, and what it gives back.

/// The host as build files see it. All three are UTF-8 texts.
#[derive(Drop)]
pub struct Host {
    /// The operating system, as `linux`.
    pub os: String,
    /// The processor, as `x64`.
    pub cpu: String,
    /// The folder of the source root on the host: it begins with `/` and doesn't end with one.
    pub root: String,
}

/// The end of a run over several sources.
#[derive(Drop)]
pub struct Ended<S> {
    /// The exit status, from 0 to 5.
    pub status: u8,
    /// The sources, each in the place where it was handed in.
    pub sources: Vec<S>,
    /// The number of build files that were loaded.
    pub units: u64,
}

/// The end of a run over one source.
#[derive(Clone, Copy, Debug, PartialEq, Eq)]
pub struct One {
    /// The exit status, from 0 to 5.
    pub status: u8,
    /// The number of build files that were loaded.
    pub units: u64,
}
