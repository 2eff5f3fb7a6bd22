// The place at which a request is answered.
ghost use Rattle.std.specs.Prelude.{◌≡◌, length};
ghost use Rattle.archive_store.specs.Told.{entries_of};

use archive_store::Store;
use ev_world::Disk;

/// How many entries the store tells.
pub fn place_in<D: Disk>(store: &Store<D>) -> u64
    ensures { result ≡ length (entries_of store.now.told) }
{
    store.archive().len()
}
