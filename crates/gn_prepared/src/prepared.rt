// The answers of build files that are wanted before they are claimed.

ghost use Rattle.std.specs.Prelude.{◌<◌, IfOk, length, slice_index_or};
ghost use Rattle.gn_prepared.specs.Copies.{answers_of};
ghost use Rattle.gn_prepared.specs.Prepared.{IsPrepared, ArePrepared};
ghost use Rattle.gn_prepared.specs.declared.wanted.Wanted.{Wanted as File};

use crate::copies::Copies;
use crate::shared::work_is_shared;
use crate::wanted::Wanted;
use crate::with_content::WithContent;
use gn_answers::Filed;
use gn_beside::deal_out;
use gn_evaluation_base::Base;
use gn_items::Key;
use gn_perform::load_answer;
use std::alloc::{AllocError, Global};
use std::thread::Threads;

// How many build files a thread takes at once.
const PIECE: usize = 1;

// The answer of a build file over copies of what is filed and the content of its file, if the work on it needs nothing else.
fn prepare_file(
    alloc: Global,
    base: &Base,
    copies: &Copies,
    wanted: &Wanted,
) -> Result<Option<Filed>, AllocError>
    ensures { IfOk result (IsPrepared base.now (answers_of copies.now) wanted.now) }
{
    match &wanted.key {
        Key::Load(directory, toolchain) => {
            let part = WithContent::new(copies, &wanted.path, &wanted.content)?;
            load_answer(alloc, base, &part, directory, toolchain)
        }
        _ => Ok(None),
    }
}

/// The answers of build files, in their order, each over copies of what is filed and the content of its file; and what other work
/// gives, which this thread does meanwhile. At most so many other threads work on the build files, each on the next one that none has
/// taken; this thread makes them, and does as they do once its own work is done. None comes where the work on a file needs something
/// else, and for a key of another kind. Err comes for want of memory alone, and the other work is done all the same.
pub fn prepare_beside<R: Threads + Sync, G: FnMut() -> B, B>(
    rt: &R,
    alloc: Global,
    threads: usize,
    base: &Base,
    copies: &Copies,
    wanted: &[Wanted],
    work: &mut G,
) -> (Result<Vec<Option<Filed>>, AllocError>, B)
    requires { G.pre work.old }
    ensures prepared { IfOk result.0 (λ prepared. ArePrepared base.now (answers_of copies.now) wanted.now prepared.items) }
    ensures worked { G.step work.old result.1 work.new }
{
    work_is_shared();
    let make = |place: usize| -> Result<Option<Filed>, AllocError>
        requires { place < length wanted.now }
        ensures { (other : File) → IfOk result (IsPrepared base.entry.now (answers_of copies.entry.now) (slice_index_or wanted.entry.now place other)) }
    { prepare_file(alloc, base, copies, &wanted[place]) };
    deal_out(rt, alloc, threads, wanted.len(), PIECE, &make, work)
}
