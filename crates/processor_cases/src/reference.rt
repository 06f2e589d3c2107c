// The files of a list by the fold, which takes the list as it is.
ghost use Rattle.item_text.specs.Items.{IsItemList};

use item_fold::{FileNote, fold_items};
use item_text::ItemList;
use out_stream::SureStream;
use prof_base::{MAX_INTERVAL, Sequence, SessionId};
use std::alloc::Global;

/// The files that the fold delivers, with the notes of them.
#[derive(Drop)]
pub(crate) struct Reference {
    stream: SureStream,
    notes: Sequence<FileNote>,
}

/// Folds a list.
pub(crate) fn folded(alloc: Global, list: &ItemList) -> Reference
    requires { IsItemList list.now }
{
    let mut stream = SureStream::new(alloc, 65_536);
    let base = list.base.clamp(1, MAX_INTERVAL);
    let folded = fold_items(alloc, base, list.items.as_slice(), &mut stream);
    Reference {
        stream,
        notes: folded.notes,
    }
}

impl Reference {
    /// Returns whether the fold delivers these parts.
    pub(crate) fn has_parts(&self, parts: &[Vec<u8>]) -> bool {
        if self.stream.closed_parts().len() != parts.len() {
            return false;
        }
        for (at, part) in parts.iter().enumerate() {
            if !self.is_part(at, part) {
                return false;
            }
        }
        true
    }

    /// Returns whether the part at this place, from 0, has these bytes.
    pub(crate) fn is_part(&self, at: usize, bytes: &[u8]) -> bool {
        match self.stream.closed_parts().get(at) {
            Some(part) => part.as_slice() == bytes,
            None => false,
        }
    }

    /// Returns whether the file of a session has these bytes.
    pub(crate) fn is_file(&self, session: SessionId, bytes: &[u8]) -> bool {
        for (at, note) in self.notes.as_slice().iter().enumerate() {
            if note.session == session {
                return self.is_part(at, bytes);
            }
        }
        false
    }
}
