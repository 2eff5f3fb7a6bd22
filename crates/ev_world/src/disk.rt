// A disk: what a read gives, what a crash may leave, and a count of its faults.
ghost use Rattle.std.specs.Prelude.{◌≡◌, ℕ, ◌+◌, ◌≤◌, Bool, IsTrue, List, length, take, drop, IfOk, OnOk};
ghost use Rattle.ev_world.specs.Causes.{HasCause};
ghost use Rattle.ev_world.specs.Disk.{Holds, Torn, Follows, Only, Elapses};

use crate::Failed;

/// A disk, or a file, as bytes from place 0 on.
///
/// Between two syncs each written range, and the part past the old end, may hold any bytes after a crash, and the length
/// may be any from the old one to the new one. Bytes outside stay. After a sync that succeeds a crash leaves what a read
/// gives. A write that fails counts as written; a sync, whatever it answers, adds nothing that a crash may leave.
///
/// A read past the end, and a write that begins past the end, answer `Failed` and are counted. Where
/// the disk tells its bytes, its caller may do neither, so it cannot raise the count by itself.
pub trait Disk {
    /// Whether disks of this type tell their bytes. Of one that does not, no clause on bytes holds.
    ghost tells: { Bool };

    /// The bytes that a read gives. They mean something only where the disk tells them.
    ghost reads: { Self → List ℕ };

    /// How often it has failed, up to the end of a `u64`.
    ghost faults: { Self → ℕ };

    /// The images: what a crash now may leave.
    ghost images: { Self → List ℕ → Type 0 };

    /// How many calls there were, up to the end of a `u64`: a moment of the disk.
    ghost clock: { Self → ℕ };

    /// What a crash at some moment from that one on might have left.
    ghost since: { Self → ℕ → List ℕ → Type 0 };

    /// How many bytes there are.
    fn len(&mut self) -> Result<u64, Failed>
        ensures bytes { IfOk result (λ n. IsTrue tells → n ≡ length (reads self.old)) }
        ensures same { IsTrue tells → reads self.new ≡ reads self.old }
        ensures crash { IsTrue tells → (c : List ℕ) → images self.new c → images self.old c }
        ensures time { IsTrue tells → Elapses (clock self.old) (clock self.new) (since self.old) (since self.new) (images self.new) }
        ensures cause { HasCause (faults self.old) (faults self.new) result };

    /// Fills `out` with the bytes from a place on.
    fn read_at(&mut self, place: u64, out: &mut [u8]) -> Result<(), Failed>
        requires { IsTrue tells → place + length out.old ≤ length (reads self.old) }
        ensures bytes { OnOk result (IsTrue tells → out.new ≡ take (length out.old) (drop place (reads self.old))) }
        ensures same { IsTrue tells → reads self.new ≡ reads self.old }
        ensures crash { IsTrue tells → (c : List ℕ) → images self.new c → images self.old c }
        ensures time { IsTrue tells → Elapses (clock self.old) (clock self.new) (since self.old) (since self.new) (images self.new) }
        ensures cause { HasCause (faults self.old) (faults self.new) result };

    /// Writes over what is there, and past the end. A write that fails may have changed its range.
    fn write_at(&mut self, place: u64, bytes: &[u8]) -> Result<(), Failed>
        requires { IsTrue tells → place ≤ length (reads self.old) }
        ensures written { OnOk result (IsTrue tells → Holds (reads self.old) place bytes.now (reads self.new)) }
        ensures torn { IsTrue tells → Torn place (length bytes.now) (reads self.old) (reads self.new) }
        ensures crash { IsTrue tells → Follows (Torn place (length bytes.now)) (images self.old) (images self.new) }
        ensures time { IsTrue tells → Elapses (clock self.old) (clock self.new) (since self.old) (since self.new) (images self.new) }
        ensures cause { HasCause (faults self.old) (faults self.new) result };

    /// Waits until all that was written is on the disk.
    fn sync(&mut self) -> Result<(), Failed>
        ensures same { IsTrue tells → reads self.new ≡ reads self.old }
        ensures durable { OnOk result (IsTrue tells → Only (reads self.old) (images self.new)) }
        ensures crash { IsTrue tells → (c : List ℕ) → images self.new c → images self.old c }
        ensures time { IsTrue tells → Elapses (clock self.old) (clock self.new) (since self.old) (since self.new) (images self.new) }
        ensures cause { HasCause (faults self.old) (faults self.new) result };

    /// The count of its faults.
    fn faults(&self) -> u64
        ensures { result ≡ faults self.now };

    /// What a read gives is an image.
    ghost reads_now: { (d : Self) → IsTrue tells → images d (reads d) };

    /// An image of now is one since each earlier moment.
    ghost counts_now: { (d : Self) (t : ℕ) (c : List ℕ) → IsTrue tells → t ≤ clock d → images d c → since d t c };

    /// Since now there is no other.
    ghost only_now: { (d : Self) (c : List ℕ) → IsTrue tells → since d (clock d) c → images d c };
}
