//! A device of two disks: what each call does to them, and what a failed call and a stop may leave; and such a device
//! of two files.
#![tactic(auto)]

mod append_file;
mod buffered_file;
mod device;
mod fail_stop_file;
mod file_disk;
mod meter;
mod system_file;
mod trap;

pub use append_file::{AppendFile, FileFault};
pub use buffered_file::BufferedFile;
pub use device::{DeviceFault, LogDisk, Side};
pub use file_disk::FileDisk;
pub use meter::Meter;
pub use system_file::{CannotOpen, SystemDisk, SystemFile};
pub use trap::{Trap, Trapped};
