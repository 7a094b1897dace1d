// The host of a run.

use gn_paths::Text;

/// What the host calls its system and its processor.
#[derive(Drop)]
pub struct HostNames {
    /// The operating system, as `linux`.
    pub os: Text,
    /// The processor, as `x64`.
    pub cpu: Text,
}
