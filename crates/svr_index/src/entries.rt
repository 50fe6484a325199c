ghost use Rattle.std.specs.Prelude.{◌≡◌, ◌<◌, ◌^◌, IfSome};
ghost use Rattle.svr_idmap.specs.Ids.{value_at};

use crate::index::Index;
use svr_chunks::Chosen;
use svr_num::{DocId, ListKey};

impl Index {
    /// Where a document is listed, if it is.
    pub fn entry(&self, id: DocId) -> Option<ListKey>
        ensures value { result ≡ value_at self.now.entries id }
        ensures within { IfSome result (λ entry. entry.key < 2 ^ 48) }
    {
        self.keys.get(id)
    }

    /// The method by which documents are listed.
    pub fn method(&self) -> &Chosen
        ensures { result.now ≡ self.now.method }
    {
        &self.method
    }
}
