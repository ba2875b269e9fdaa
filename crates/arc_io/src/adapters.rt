//! The adapters over the machine. They tell nothing of content, and are trusted beyond their counts.
mod clock;
mod file;
mod file_disk;
mod noise;
mod refusal_lines;
mod standard;

pub use clock::RealClock;
pub use file::FileSource;
pub use file_disk::FileDisk;
pub use noise::RealNoise;
pub use refusal_lines::RefusalLines;
pub use standard::StdPort;
