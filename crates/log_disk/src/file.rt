ghost use Rattle.std.specs.Prelude.{◌≡◌, Ok, IfOk};
ghost use Rattle.bus_types.specs.Causes.{HasCause};
ghost use Rattle.log_disk.specs.File.{untold_disk};

use crate::disk::Disk;
use bus_types::{Count, Failed};
use std::fs::File;
use std::io;
use std::os::unix::fs::FileExt;

/// A file, as a disk that counts how often it failed. It tells nothing of its bytes nor of what a crash leaves of them,
/// since no contract can say that a real file keeps to the model: that is trusted.
#[derive(Drop)]
pub struct FileDisk {
    file: File,
    faults: Count,
}

impl FileDisk {
    /// A disk over a file that was opened for reading and writing. It has not failed yet. The bytes that the file has are
    /// the disk's.
    pub fn new(file: File) -> FileDisk {
        FileDisk {
            file,
            faults: Count::zero(),
        }
    }

    // What a call of the file answered, of which a fault is counted.
    fn answer<T>(&mut self, given: io::Result<T>) -> Result<T, Failed>
        ensures cause { HasCause self.old.faults self.new.faults result }
        ensures value { IfOk result (λ value. given ≡ Ok value) }
    {
        match given {
            Ok(value) => Ok(value),
            Err(_) => {
                self.faults.raise();
                Err(Failed)
            }
        }
    }
}

impl Disk for FileDisk {
    ghost state = { λ d. untold_disk d.faults };

    #[tactic(auto, using(crate::proofs::Untold::untold))]
    fn len(&mut self) -> Result<u64, Failed> {
        let data = self.file.metadata();
        Ok(self.answer(data)?.len())
    }

    #[tactic(auto, using(crate::proofs::Untold::untold))]
    fn read(&mut self, place: u64, buf: &mut [u8]) -> Result<usize, Failed> {
        let count = self.file.read_at(buf, place);
        self.answer(count)
    }

    #[tactic(auto, using(crate::proofs::Untold::untold))]
    fn write_at(&mut self, place: u64, bytes: &[u8]) -> Result<(), Failed> {
        let done = self.file.write_all_at(bytes, place);
        self.answer(done)
    }

    #[tactic(auto, using(crate::proofs::Untold::untold))]
    fn cut(&mut self, len: u64) -> Result<(), Failed> {
        let done = self.file.set_len(len);
        self.answer(done)
    }

    /// The file's bytes and its length are made lasting.
    #[tactic(auto, using(crate::proofs::Untold::untold))]
    fn sync(&mut self) -> Result<(), Failed> {
        let done = self.file.sync_all();
        self.answer(done)
    }
}
