ghost use Rattle.std.specs.Prelude.{◌≤◌, length, IfSome};
ghost use Rattle.log_disk.specs.Disk.{DiskState, TellsLength, ReadsAt, Writes, Cuts, Syncs};

use bus_types::Failed;

/// Bytes that outlive a crash, once they are synced.
///
/// Since the last sync a crash may leave any length from the least to the greatest that the disk had, and any bytes in
/// each range that was written and past the end that the sync left; all other bytes stay. Directly after a sync that
/// answers Ok it leaves what a read gives. A crash may come in a call as well as between two.
///
/// A disk may tell its bytes. What it tells it tells from then on. It always tells how often it failed.
pub trait Disk {
    /// What it tells of itself.
    ghost state: { Self → DiskState };

    /// How many bytes it has.
    fn len(&mut self) -> Result<u64, Failed>
        ensures { TellsLength (state self.old) (state self.new) result };

    /// Places bytes from a place on at the front of `buf`, and answers how many: at least one where there is one and room
    /// for it, and none from the length on. After `Failed` the buffer may hold anything.
    fn read(&mut self, place: u64, buf: &mut [u8]) -> Result<usize, Failed>
        ensures { ReadsAt place buf.new (state self.old) (state self.new) result };

    /// Writes bytes at a place, over what stands there and past the end. After `Failed` the range may hold any bytes, and
    /// the length may be any from the old one to the greater of it and the range's end.
    fn write_at(&mut self, place: u64, bytes: &[u8]) -> Result<(), Failed>
        requires { IfSome (state self.old).seen (λ seen. place ≤ length seen) }
        ensures { Writes place bytes.now (state self.old) (state self.new) result };

    /// Cuts it to a length. After `Failed` the length is the old or the new one.
    fn cut(&mut self, len: u64) -> Result<(), Failed>
        requires { IfSome (state self.old).seen (λ seen. len ≤ length seen) }
        ensures { Cuts len (state self.old) (state self.new) result };

    /// Makes lasting what was written and cut. After `Failed` what was pending is pending.
    fn sync(&mut self) -> Result<(), Failed>
        ensures { Syncs (state self.old) (state self.new) result };
}
