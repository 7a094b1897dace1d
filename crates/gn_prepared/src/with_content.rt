// Copies of what is filed, and the content of one more path.

ghost use Rattle.std.specs.Prelude.{◌≡◌, IfOk, Some};
ghost use Rattle.gn_core.specs.Keys.{Read, put, same_key};
ghost use Rattle.gn_book.specs.Keys.{key_of};
ghost use Rattle.gn_answers.specs.Answers.{content_view, meaning_of};
ghost use Rattle.gn_prepared.specs.Contents.{with_content, IsIncludedLater, BasesStand, KeepsNoUnits};
ghost use Rattle.gn_prepared.specs.Copies.{answers_of};

use crate::copies::Copies;
use gn_answers::{FileContent, Filed, Part};
use gn_items::Key;
use gn_paths::Path;
use std::alloc::AllocError;

/// Copies of what is filed, and the content of one more path.
#[derive(Drop)]
pub(crate) struct WithContent<'a> {
    copies: &'a Copies,
    path: &'a Path,
    content: Filed,
}

impl<'a> WithContent<'a> {
    /// Copies of what is filed, and what there is at a path. The bytes of a file aren't copied.
    pub(crate) fn new(
        copies: &'a Copies,
        path: &'a Path,
        content: &FileContent,
    ) -> Result<WithContent<'a>, AllocError>
        ensures { IfOk result (λ part. put (answers_of part.copies.now) (Read part.path.now) (Some (meaning_of part.content)) ≡
            with_content (answers_of copies.now) path.now (content_view content.now)) }
    {
        Ok(WithContent {
            copies,
            path,
            content: Filed::Content(content.copy()?),
        })
    }
}

// Whether a key is that of the content at a path.
fn is_read_at(key: &Key, path: &Path) -> bool
    ensures { result ≡ same_key (Read path.now) (key_of key.now) }
{
    match key {
        Key::Read(read) => path == read,
        Key::Import(..) => false,
        Key::Setup(_) => false,
        Key::Load(..) => false,
        Key::Resolve(_) => false,
    }
}

impl Part for WithContent<'_> {
    ghost answers = { λ part. put (answers_of part.copies.now) (Read part.path.now) (Some (meaning_of part.content)) };

    fn find(&self, key: &Key) -> Option<&Filed> {
        if is_read_at(key, self.path) {
            Some(&self.content)
        } else {
            self.copies.find(key)
        }
    }
}

/// What is filed later includes what was filed with the content of one more path, where it has that content itself. With such a
/// content there are no answers of units where there were none; and where there are none, the base of each layer is the one at the
/// start. It does nothing.
pub fn contents_are_included()
    ensures later { IsIncludedLater }
    ensures base { BasesStand }
    ensures content { KeepsNoUnits }
{}
