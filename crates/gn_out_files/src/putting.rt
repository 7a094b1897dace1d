// Puts files one after the other.

ghost use Rattle.std.specs.Prelude.{◌≡◌};
ghost use Rattle.gn_out_files.specs.Files.{PutsAll};
ghost use Rattle.gn_out_files.specs.Keys.{files_of};

use crate::out_files::FileKey;
use gn_outside::{Sink, SinkStop};
use gn_paths::Text;
use std::collections::BTreeMap;

/// Announces files to a sink.
pub(crate) fn announce_each<K: Sink>(files: &BTreeMap<FileKey, Text>, sink: &mut K)
    ensures { K.state sink.new ≡ K.state sink.old }
{
    for (key, bytes) in files {
        sink.announce(key.path.as_str(), bytes.as_bytes());
    }
}

/// Puts files one after the other, up to the first that can't be put.
pub(crate) fn put_each<K: Sink>(
    files: &BTreeMap<FileKey, Text>,
    sink: &mut K,
) -> Result<(), SinkStop>
    ensures { PutsAll (K.state sink.old) (K.state sink.new) (files_of files.now.entries) result }
{
    for (key, bytes) in files {
        if let Err(stop) = sink.put(key.path.as_str(), bytes.as_bytes()) {
            return Err(stop);
        }
    }
    Ok(())
}
